// The corners that a list of numbers gives, a corner written to a list, and the value that holds an outline.
ghost use Rattle.std.specs.Prelude.{◌≡◌, ◌+◌, ◌*◌, ◌<◌, ◌≤◌, [], length};
ghost use Rattle.outline.specs.Corners.{corners, corner, next, previous, held, most};
ghost use Rattle.outline.specs.Orientation.{as_held, given_corner, given_edge};
ghost use Rattle.outline.specs.code.Unfilled.{unfilled};
ghost use Rattle.outline.specs.code.Writing.{put_corner};

use outline::{MOST, Orientation, Outline};
use plane::Corner;

// How many numbers the list of an outline has at the most.
pub const MOST_NUMBERS: usize = 2 * MOST;

// Room for the numbers of an outline. Who reads fewer to it keeps their count beside it, since there is no heap. The
// contract has its length alone, not the list of all the zeros.
pub fn no_numbers() -> [i32; MOST_NUMBERS]
    ensures { 2 * most ≡ length result }
{
    [0; MOST_NUMBERS]
}

// How many corners a list gives.
pub fn count(s: &[i32]) -> usize
    ensures { result ≡ length (corners s.now) }
{
    s.len() / 2
}

// Corner i of a list.
pub fn corner(s: &[i32], i: usize) -> Corner
    requires { i < length (corners s.now) }
    ensures { result ≡ corner (corners s.now) i }
{
    Corner {
        x: s[2 * i],
        y: s[2 * i + 1],
    }
}

// Writes a corner's coordinates to a list, as its corner j.
pub fn put_corner(out: &mut [i32], j: usize, c: Corner)
    requires { 2 * j + 1 < length out.old }
    ensures { out.new ≡ put_corner out.old j c }
{
    let x = c.x;
    let y = c.y;
    out[2 * j] = x;
    out[2 * j + 1] = y;
}

// The number of the corner that follows corner i of n. That i is below n stays a clause: definitions name `next n i`.
pub fn next(n: usize, i: usize) -> usize
    requires { i < n }
    ensures { result ≡ next n i }
{
    if i + 1 < n { i + 1 } else { 0 }
}

// The number of the corner before corner i of n.
pub fn previous(n: usize, i: usize) -> usize
    requires { i < n }
    ensures { result ≡ previous n i }
{
    if i == 0 { n - 1 } else { i - 1 }
}

// The number, in the list as given, of the corner that is held as corner j of n. (Orientation and count stay apart: a
// list has both, and a window of `measuring` the count alone.)
pub fn given_corner(orientation: Orientation, n: usize, j: usize) -> usize
    requires { j < n }
    ensures { result ≡ given_corner orientation n j }
{
    match orientation {
        Orientation::Counterclockwise => j,
        Orientation::Clockwise => if j == 0 { 0 } else { n - j },
    }
}

// The number, in the list as given, of the edge that is held as edge j of n.
pub fn given_edge(orientation: Orientation, n: usize, j: usize) -> usize
    requires { j < n }
    ensures { result ≡ given_edge orientation n j }
{
    match orientation {
        Orientation::Counterclockwise => j,
        Orientation::Clockwise => n - 1 - j,
    }
}

// Corner j of a list, as it is held.
pub fn held_corner(s: &[i32], orientation: Orientation, j: usize) -> Corner
    requires { j < length (corners s.now) }
    ensures { result ≡ corner (as_held orientation (corners s.now)) j }
{
    corner(s, given_corner(orientation, count(s), j))
}

// A value for an outline of n corners, all its places zero.
pub fn unfilled(n: usize) -> Outline
    ensures { result ≡ unfilled n }
{
    Outline {
        count: n,
        corners: [Corner { x: 0, y: 0 }; MOST],
    }
}

// The outline with the corners of a list, as they are held.
pub fn held(s: &[i32], orientation: Orientation) -> Outline
    requires { length (corners s.now) ≤ most }
    ensures { result ≡ held (as_held orientation (corners s.now)) }
{
    let n = count(s);
    let mut outline = unfilled(n);
    for i in 0..n {
        outline.corners[i] = held_corner(s, orientation, i);
    }
    outline
}
