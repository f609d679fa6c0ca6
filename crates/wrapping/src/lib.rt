// The convex hull of points, by wrapping: from the lowest point on to the corner that comes next, until no point is left
// to come. In each step the points that can still come are fewer, so n points with h corners take at most n·h tests of
// each kind.
#![tactic(auto)]

pub mod checks;
pub mod marks;
pub mod points;

ghost use Rattle.std.specs.Prelude.{◌≡◌, ◌*◌, ◌%◌, ◌≤◌, length};
ghost use mathlib.Core.List.{Memᴰ};
ghost use Rattle.outline.specs.Convex.{AllInRange};
ghost use Rattle.outline.specs.Corners.{corners, most};
ghost use Rattle.hull.specs.code.Wrapping.{is_candidate, kept, hull_from, convex_hull};
ghost use Rattle.wrapping.specs.Steps.{Wraps};

use crate::points::{fill, foremost, keep_candidates, lowest};
use plane::Corner;
use reading::corners::{no_numbers, put_corner};

// Writes the corners of the hull that starts at s, one of the points in `zs`, to `hull`. Gives how many there are. What
// `zs` holds is lost: the points that can still come stand first in it.
fn wrap(s: Corner, zs: &mut [i32], hull: &mut [i32]) -> usize
    requires fact { Memᴰ s (corners zs.old) }
    requires zs_in_bounds { 2 * length (corners zs.old) ≤ length hull.old }
    requires all_in_range { AllInRange (corners zs.old) }
    ensures { Wraps (hull_from s (kept (is_candidate s s) (corners zs.old))) result hull.new }
{
    put_corner(hull, 0, s);
    let mut count = 1;
    let mut last = s;
    let mut left = keep_candidates(zs, s, s);
    while 0 < left {
        last = foremost(last, &zs[..2 * left]);
        put_corner(hull, count, last);
        count += 1;
        left = keep_candidates(&mut zs[..2 * left], s, last);
    }
    count
}

// Writes the corners of the convex hull of the points that a list gives to `hull`. Gives how many there are.
pub fn convex_hull(s: &[i32], hull: &mut [i32]) -> usize
    requires s_len { length s.now % 2 ≡ 0 }
    requires s_len_bound { length (corners s.now) ≤ most }
    requires all_in_range { AllInRange (corners s.now) }
    requires hull_len { length hull.old ≡ 2 * most }
    ensures { Wraps (convex_hull (corners s.now)) result hull.new }
{
    let length = s.len();
    if length == 0 {
        return 0;
    }
    let mut zs = no_numbers();
    fill(s, &mut zs[..length]);
    wrap(lowest(s), &mut zs[..length], hull)
}
