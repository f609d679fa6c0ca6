// The checks of a list, of which the first in the order of rule 2.4 stands. Each names the corner or edge that fails
// it first; `whose` is the side that a refusal names. (List and side stay
// apart: no fact holds of both, and half of what takes the list has no side.)
ghost use Rattle.std.specs.Prelude.{◌≡◌, ◌<◌, ◌≤◌, length};
ghost use Rattle.plane.specs.Range.{InRange};
ghost use Rattle.plane.specs.code.Range.{Span, reach};
ghost use Rattle.outline.specs.code.Checks.{first};
ghost use Rattle.outline.specs.Convex.{AllInRange};
ghost use Rattle.outline.specs.Corners.{corners, fewest};
ghost use Rattle.outline.specs.Orientation.{as_held};
ghost use Rattle.outline.specs.code.Either.{orientation_of, check_either};
ghost use Rattle.reading.specs.Edge.{edge_of, is_not_left_of};
ghost use Rattle.reading.specs.Numbers.{check_numbers};
ghost use Rattle.reading.specs.Shape.{check_shape};
ghost use Rattle.reading.specs.Visit.{visit_of, InReach, keeps_left_by};
ghost use Rattle.outline.specs.code.Turns.{is_convex};
ghost use Rattle.outline.specs.code.Reading.{is_out_of_range, is_repeated};
ghost use Rattle.outline.specs.code.Reading.{length_checks, check_range, check_repeated, check_edge, check_convex, check};

use crate::corners::{corner, count, held_corner, next};
use crate::refusals::refuse;
use outline::{FEWEST, Fault, MOST, Orientation, Place, Refusal, Side};
use plane::{Corner, Vector};

// 1, 2 and 3: the length of the list.
fn check_length(s: &[i32], whose: Option<Side>) -> Result<(), Refusal>
    ensures { result ≡ first (length_checks whose s.now) }
{
    if s.len() % 2 == 1 {
        return refuse(Fault::OddLength, whose, Place::Nowhere);
    }
    let n = count(s);
    if n < FEWEST {
        return refuse(Fault::TooFew, whose, Place::Nowhere);
    }
    if MOST < n {
        return refuse(Fault::TooMany, whose, Place::Nowhere);
    }
    Ok(())
}

// Whether corner i is out of range.
fn is_out_of_range(s: &[i32], i: usize) -> bool
    requires { i < length (corners s.now) }
    ensures { result ≡ is_out_of_range (corners s.now) i }
{
    !plane::in_range(corner(s, i))
}

// 4: the first corner that is out of range.
pub fn check_range(s: &[i32], whose: Option<Side>) -> Result<(), Refusal>
    ensures { result ≡ check_range whose (corners s.now) }
{
    for i in 0..count(s) {
        if is_out_of_range(s, i) {
            return refuse(Fault::OutOfRange, whose, Place::At(i));
        }
    }
    Ok(())
}

// 1 to 4: the length of the list, and whether its corners are in range.
fn check_numbers(s: &[i32], whose: Option<Side>) -> Result<(), Refusal>
    ensures { result ≡ check_numbers whose s.now }
{
    check_length(s, whose)?;
    check_range(s, whose)
}

// Whether corner i is equal to the following one.
fn is_repeated(s: &[i32], i: usize) -> bool
    requires { i < length (corners s.now) }
    ensures { result ≡ is_repeated (corners s.now) i }
{
    corner(s, i) == corner(s, next(count(s), i))
}

// 5: the first corner that is equal to the following one.
fn check_repeated(s: &[i32], whose: Option<Side>) -> Result<(), Refusal>
    ensures { result ≡ check_repeated whose (corners s.now) }
{
    for i in 0..count(s) {
        if is_repeated(s, i) {
            return refuse(Fault::Repeated, whose, Place::At(i));
        }
    }
    Ok(())
}

// An edge, taken out of the list: the numbers of its ends, the corner that it runs from, and its differences.
#[derive(Clone, Copy)]
struct Edge {
    start: usize,
    end: usize,
    from: Corner,
    run: Vector,
}

fn take_edge(s: &[i32], e: usize) -> Edge
    requires { e < length (corners s.now) }
    ensures { result ≡ edge_of (corners s.now) e }
{
    let f = next(count(s), e);
    let p = corner(s, e);
    let q = corner(s, f);
    Edge {
        start: e,
        end: f,
        from: p,
        run: plane::difference(p, q),
    }
}

// Whether corner c, at v, is no end of the edge and not strictly left of it.
fn is_not_left(edge: Edge, c: usize, v: Corner) -> bool
    requires span { Span reach edge.run }
    requires in_range { InRange edge.from }
    requires in_range_2 { InRange v }
    ensures { result ≡ is_not_left_of edge c v }
{
    if c == edge.start {
        return false;
    }
    if c == edge.end {
        return false;
    }
    !plane::is_left(edge.from, edge.run, v)
}

// 6, for edge e alone: the first corner that is not strictly left of it. `AllInRange` stays a clause, and
// the count of `check_shape`: `orientation` and `check_shape` take any list that meets them, so a type would serve three
// private checks, and each clause would name its field.
fn check_edge(s: &[i32], whose: Option<Side>, e: usize) -> Result<(), Refusal>
    requires e_in_bounds { e < length (corners s.now) }
    requires all_in_range { AllInRange (corners s.now) }
    ensures { result ≡ check_edge whose (corners s.now) e }
{
    let edge = take_edge(s, e);
    for c in 0..count(s) {
        if is_not_left(edge, c, corner(s, c)) {
            return refuse(Fault::NotLeft, whose, Place::EdgeAndCorner(e, c));
        }
    }
    Ok(())
}

// 6: the first edge that some corner is not strictly left of, and the first such corner.
fn check_convex(s: &[i32], whose: Option<Side>) -> Result<(), Refusal>
    requires { AllInRange (corners s.now) }
    ensures { result ≡ check_convex whose (corners s.now) }
{
    for e in 0..count(s) {
        check_edge(s, whose, e)?;
    }
    Ok(())
}

// A corner that the pass over the corners visits: where it is, and the differences to it from corner 0 and from the
// corner before.
#[derive(Clone, Copy)]
struct Visit {
    corner: Corner,
    diagonal: Vector,
    edge: Vector,
}

// The visit of the corner `to`, which comes after `from`; `apex` is corner 0.
fn visit_of(apex: Corner, from: Corner, to: Corner) -> Visit
    ensures { result ≡ visit_of apex from to }
{
    Visit {
        corner: to,
        diagonal: plane::difference(apex, to),
        edge: plane::difference(from, to),
    }
}

// Whether the corner visited is strictly left of edge 0, whose differences are `run`, of the line from corner 0 to the
// corner before, and of the edge to that corner, whose visit is `last`.
fn keeps_left_by(run: Vector, last: Visit, visit: Visit) -> bool
    requires span { Span reach run }
    requires in_reach { InReach last }
    requires in_reach_2 { InReach visit }
    ensures { result ≡ keeps_left_by run last visit }
{
    if !plane::turns_left(run, visit.diagonal) {
        return false;
    }
    if !plane::turns_left(last.diagonal, visit.diagonal) {
        return false;
    }
    plane::turns_left(last.edge, visit.edge)
}

// The orientation that the first three corners of a list have: whether corner 2 is strictly left of edge 0.
pub fn orientation(s: &[i32]) -> Orientation
    requires fewest_in_bounds { fewest ≤ length (corners s.now) }
    requires all_in_range { AllInRange (corners s.now) }
    ensures { result ≡ orientation_of (corners s.now) }
{
    let p = corner(s, 0);
    let run = plane::difference(p, corner(s, 1));
    if plane::is_left(p, run, corner(s, 2)) {
        Orientation::Counterclockwise
    } else {
        Orientation::Clockwise
    }
}

// Whether the corners, as they are held, are strictly convex, in one pass that takes each corner out of the list once:
// both readings take linear time where they are, and every accepted outline is. Without an edge 0 there is nothing to
// test. It is right because any three corners, in number order, turn left where each corner keeps left
// (`outline/proofs/TurnsLaws.antt`).
fn is_convex(s: &[i32], orientation: Orientation) -> bool
    requires { AllInRange (corners s.now) }
    ensures { result ≡ is_convex (as_held orientation (corners s.now)) }
{
    let n = count(s);
    if n < 2 {
        return true;
    }
    let apex = held_corner(s, orientation, 0);
    let mut last = visit_of(apex, apex, held_corner(s, orientation, 1));
    let run = last.diagonal;
    for k in 2..n {
        let visit = visit_of(apex, last.corner, held_corner(s, orientation, k));
        if !keeps_left_by(run, last, visit) {
            return false;
        }
        last = visit;
    }
    true
}

// 5 and then 6. Three or more strictly convex corners have no equal neighbours: so both are looked for only where the
// corners are not strictly convex.
pub fn check_shape(s: &[i32], whose: Option<Side>) -> Result<(), Refusal>
    requires fewest_in_bounds { fewest ≤ length (corners s.now) }
    requires all_in_range { AllInRange (corners s.now) }
    ensures { result ≡ check_shape whose (corners s.now) }
{
    if is_convex(s, Orientation::Counterclockwise) {
        return Ok(());
    }
    check_repeated(s, whose)?;
    check_convex(s, whose)
}

// All checks of the strict reading, which takes counterclockwise lists only: what the first that refuses answers.
pub fn check(s: &[i32], whose: Option<Side>) -> Result<(), Refusal>
    ensures { result ≡ check whose s.now }
{
    check_numbers(s, whose)?;
    check_shape(s, whose)
}

// All checks of the default reading, which takes either orientation: what the first that refuses answers. A list can
// have only the orientation of its first three corners, so one pass decides for both.
pub fn check_either(s: &[i32], whose: Option<Side>) -> Result<(), Refusal>
    ensures { result ≡ check_either whose s.now }
{
    check_numbers(s, whose)?;
    if is_convex(s, orientation(s)) {
        return Ok(());
    }
    check_shape(s, whose)
}
