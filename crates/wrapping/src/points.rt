// Points of a list: the lowest, those that can still be corners of a hull, and the first of these.
ghost use Rattle.std.specs.Prelude.{◌≡◌, ◌≤◌, ◌<◌, length, drop};
ghost use Rattle.std.specs.Int.Signed.{lt_z};
ghost use Rattle.plane.specs.Range.{InRange};
ghost use Rattle.plane.specs.Vector.{dot};
ghost use Rattle.plane.specs.code.Range.{Span, reach};
ghost use Rattle.outline.specs.Convex.{AllInRange};
ghost use Rattle.outline.specs.Corners.{corners, corner};
ghost use Rattle.hull.specs.Call.{filled_up};
ghost use Rattle.hull.specs.code.Wrapping.{lowest, is_candidate, is_ahead, foremost};
ghost use Rattle.wrapping.specs.First.{Comparable, IsFirst};
ghost use Rattle.wrapping.specs.Steps.{KeepsCandidates};

use plane::{Corner, Vector};
use reading::corners::{corner, count, put_corner};

// Copies a list to one that is at least as long, and writes zeros after it.
pub fn fill(from: &[i32], to: &mut [i32])
    requires { length from.now ≤ length to.old }
    ensures { to.new ≡ filled_up (length to.old) from.now }
{
    let n = from.len();
    to[..n].copy_from_slice(from);
    to[n..].fill(0);
}

// The first of some points, by a test of which of two comes before the other.
fn first_by<F: Fn(Corner, Corner) -> bool>(zs: &[i32], comes_before: F) -> Corner
    requires nonzero { 0 < length (corners zs.now) }
    requires comparable { Comparable (F.pre comes_before) (corners zs.now) }
    ensures { IsFirst (F.post comes_before) (corners zs.now) result }
{
    let mut found = corner(zs, 0);
    for i in 1..count(zs) {
        let next = corner(zs, i);
        if comes_before(next, found) {
            found = next;
        }
    }
    found
}

// The lowest point, of several the leftmost.
pub fn lowest(s: &[i32]) -> Corner
    requires { 0 < length (corners s.now) }
    ensures { result ≡ lowest (corner (corners s.now) 0) (drop 1 (corners s.now)) }
{
    first_by(s, plane::is_lower)
}

// Whether z can come after the corner p of a hull that starts at s: from s every other point, from a later corner one
// strictly left of the line from s to it.
fn is_candidate(s: Corner, p: Corner, z: Corner) -> bool
    requires in_range { InRange s }
    requires in_range_2 { InRange p }
    requires in_range_3 { InRange z }
    ensures { result ≡ is_candidate s p z }
{
    if s == p {
        return s != z;
    }
    plane::is_left(s, plane::difference(s, p), z)
}

// Moves the points that can come after p to the beginning of a list, in their order. Gives how many there are.
pub fn keep_candidates(zs: &mut [i32], s: Corner, p: Corner) -> usize
    requires all_in_range { AllInRange (corners zs.old) }
    requires in_range { InRange s }
    requires in_range_2 { InRange p }
    ensures { KeepsCandidates s p zs.old result zs.new }
{
    let n = count(&zs[..]);
    let mut left = 0;
    for i in 0..n {
        let z = corner(&zs[..], i);
        put_corner(zs, left, z);
        if is_candidate(s, p, z) {
            left += 1;
        }
    }
    left
}

// Whether b is longer than a.
fn is_longer(a: Vector, b: Vector) -> bool
    requires span { Span reach a }
    requires span_2 { Span reach b }
    ensures { result ≡ lt_z (dot a a) (dot b b) }
{
    plane::squared_length(a) < plane::squared_length(b)
}

// Whether z comes before q, seen from p: it is strictly right of the line to q, or on that line and farther away.
fn is_ahead(p: Corner, z: Corner, q: Corner) -> bool
    requires in_range { InRange p }
    requires in_range_2 { InRange z }
    requires in_range_3 { InRange q }
    ensures { result ≡ is_ahead p z q }
{
    let run = plane::difference(p, q);
    if plane::is_right(p, run, z) {
        return true;
    }
    if plane::is_left(p, run, z) {
        return false;
    }
    is_longer(run, plane::difference(p, z))
}

// The first of some points, seen from p.
pub fn foremost(p: Corner, zs: &[i32]) -> Corner
    requires nonzero { 0 < length (corners zs.now) }
    requires all_in_range { AllInRange (corners zs.now) }
    requires in_range { InRange p }
    ensures { result ≡ foremost p (corner (corners zs.now) 0) (drop 1 (corners zs.now)) }
{
    first_by(zs, |z, q| is_ahead(p, z, q))
}
