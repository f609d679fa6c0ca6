// The mismatch sum as code: one nearest-point pass for each corner of both outlines.
#![tactic(auto)]

ghost use Rattle.std.specs.Prelude.{◌≡◌};
ghost use Rattle.plane.specs.Range.{InRange};
ghost use Rattle.hausdorff.specs.Pair.{both};
ghost use Rattle.mismatch.specs.code.MismatchSum.{gap_units, side_sum, mismatch_sum};
ghost use Rattle.reading.specs.Accepted.{accepted_corners};

use mismatch::UNITS;
use plane::Corner;
use reading::accepted::AcceptedOutline;

// The gap of v to an outline, in whole units.
fn gap_units(outline: &AcceptedOutline, v: Corner) -> u64
    requires { InRange v }
    ensures { result ≡ gap_units (accepted_corners outline.now) v }
{
    projection::nearest(outline, v).gap.whole_units(UNITS)
}

// The gaps of the corners of the first outline to the second, in whole units, added.
fn side_sum(outline: &AcceptedOutline, other: &AcceptedOutline) -> u64
    ensures { result ≡ side_sum (accepted_corners outline.now) (accepted_corners other.now) }
{
    let mut sum = 0;
    for i in 0..outline.count() {
        sum += gap_units(other, outline.corner(i));
    }
    sum
}

// The mismatch sum of two outlines.
pub fn mismatch_sum(a: &AcceptedOutline, b: &AcceptedOutline) -> u64
    ensures { result ≡ mismatch_sum (both (accepted_corners a.now) (accepted_corners b.now)) }
{
    side_sum(a, b) + side_sum(b, a)
}
