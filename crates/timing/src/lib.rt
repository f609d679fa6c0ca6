// The parts of a call that the benchmarks under bench/ time apart. `timing_c` exports them for C programs, which link
// them beside the library of the calls.
#![tactic(auto)]

ghost use Rattle.std.specs.Prelude.{◌≡◌};
ghost use Rattle.outline.specs.Corners.{corners};
ghost use Rattle.reading.specs.Accepted.{accepted_corners};
ghost use Rattle.timing.specs.Answers.{is_above_diagonal, digest, digest_at, greatest_digest};
ghost use Rattle.timing.specs.Answers.{timing_core, lesser_coordinate, timing_read};

use nearest::NearestPoint;
use outline::MOST;
use plane::{Corner, Point};
use reading::accepted::AcceptedOutline;
use reading::corners;

fn is_above_diagonal(p: Point) -> bool
    ensures { result ≡ is_above_diagonal p }
{
    p.x < p.y
}

// A number that the gap and the nearest point bear on, so that the work for neither can be left out.
fn digest(a: NearestPoint) -> u64
    ensures { result ≡ digest a }
{
    if is_above_diagonal(a.point) {
        a.gap.upper
    } else {
        a.gap.lower
    }
}

// That of the nearest point of an outline to v; 0 where v is out of range.
#[tactic(auto, unfolding(crate::specs::Answers::digest_at))]
fn digest_at(outline: &AcceptedOutline, v: Corner) -> u64
    ensures { result ≡ digest_at (accepted_corners outline.now) v }
{
    if !plane::in_range(v) {
        return 0;
    }
    digest(projection::nearest(outline, v))
}

// The greatest of these for the points of a list, x and y of each.
fn greatest_digest(outline: &AcceptedOutline, points: &[i32]) -> u64
    ensures { result ≡ greatest_digest (accepted_corners outline.now) (corners points.now) }
{
    let mut greatest = 0;
    for i in 0..corners::count(points) {
        greatest = greatest.max(digest_at(outline, corners::corner(points, i)));
    }
    greatest
}

// The nearest point for each point of a list, with the outline checked once. Answers the greatest of the numbers that
// `digest` gives, or 0 where the outline is refused.
#[tactic(auto, unfolding(crate::specs::Answers::timing_core))]
pub fn timing_core(s: &[i32], points: &[i32]) -> u64
    ensures { result ≡ timing_core s.now points.now }
{
    match AcceptedOutline::accept(s, None) {
        Ok(outline) => greatest_digest(&outline, points),
        Err(_) => 0,
    }
}

fn lesser_coordinate(v: Corner) -> i32
    ensures { result ≡ lesser_coordinate v }
{
    v.x.min(v.y)
}

// Reading an outline. Answers the lesser coordinate of what is in place k of the outline read: 0 where the list is
// refused or k is 256 or more. Only the caller knows k, so no corner can be left out.
pub fn timing_read(s: &[i32], k: usize) -> i32
    ensures { result ≡ timing_read s.now k }
{
    match reading::read(s, None) {
        Ok(outline) if k < MOST => lesser_coordinate(outline.corners[k]),
        _ => 0,
    }
}
