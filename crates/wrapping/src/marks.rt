// The mark of every point.
ghost use Rattle.std.specs.Prelude.{◌≡◌, ◌≤◌, ◌<◌, length};
ghost use Rattle.outline.specs.Corners.{corners, most};
ghost use Rattle.hull.specs.code.Marks.{is_repeat, number_from, mark, marks};

use plane::Corner;
use reading::corners::{corner, count};

// The mark of a point that repeats an earlier one, and of a point that is no corner: numbers of a lent list (rule 1.12).
const REPEATED: i32 = -1;

const NO_CORNER: i32 = -2;

// Whether point i repeats an earlier point.
fn is_repeat(s: &[i32], i: usize) -> bool
    requires { i < length (corners s.now) }
    ensures { result ≡ is_repeat (corners s.now) i }
{
    let v = corner(s, i);
    (0..i).any(|j| corner(s, j) == v)
}

// The number of the corner of a hull that v is, or the mark for none.
fn corner_number(hull: &[i32], v: Corner) -> i32
    requires { length (corners hull.now) ≤ most }
    ensures { result ≡ number_from 0 (corners hull.now) v }
{
    match (0..count(hull)).find(|&k| corner(hull, k) == v) {
        Some(k) => k as i32,
        None => NO_CORNER,
    }
}

// The mark of point i: -1 if it repeats an earlier point, else its corner number, else -2.
fn mark(s: &[i32], hull: &[i32], i: usize) -> i32
    requires i_in_bounds { i < length (corners s.now) }
    requires hull_len_bound { length (corners hull.now) ≤ most }
    ensures { result ≡ mark (corners s.now) (corners hull.now) i }
{
    if is_repeat(s, i) {
        return REPEATED;
    }
    corner_number(hull, corner(s, i))
}

// Writes the mark of every point of a list, given the corners of their hull.
pub fn write_marks(s: &[i32], hull: &[i32], out: &mut [i32])
    requires out_len { length out.old ≡ length (corners s.now) }
    requires hull_len_bound { length (corners hull.now) ≤ most }
    ensures { out.new ≡ marks (corners s.now) (corners hull.now) }
{
    for (i, place) in out.iter_mut().enumerate() {
        *place = mark(s, hull, i);
    }
}
