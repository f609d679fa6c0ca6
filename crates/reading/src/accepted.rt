// An outline that the checks of the default reading take, as it is given.
ghost use Rattle.std.specs.Prelude.{◌≡◌, ◌<◌, length};
ghost use Rattle.plane.specs.Range.{InRange};
ghost use Rattle.outline.specs.Corners.{corner};
ghost use Rattle.outline.specs.Orientation.{AcceptedAs};
ghost use Rattle.outline.proofs.AcceptedLaws.{AcceptedAs-prop};

use crate::{checks, corners};
use outline::{Orientation, Refusal, Side};
use plane::Corner;

// A list of numbers and an orientation with which it is accepted.
#[derive(Clone, Copy)]
pub struct AcceptedOutline<'a> {
    pub numbers: &'a [i32],
    pub orientation: Orientation,
    pub ghost accepted: { AcceptedAs orientation numbers.now } by { AcceptedAs-prop orientation numbers.now },
}

impl<'a> AcceptedOutline<'a> {
    ghost use Rattle.reading.specs.Acceptance.{IsAcceptance};

    // All checks of the default reading, which takes either orientation: the list with its orientation, or what the first
    // check that refuses answers. A refusal names the side `whose`.
    pub fn accept(numbers: &'a [i32], whose: Option<Side>) -> Result<AcceptedOutline<'a>, Refusal>
        ensures { IsAcceptance whose numbers.now result }
    {
        checks::check_either(numbers, whose)?;
        Ok(AcceptedOutline {
            numbers,
            orientation: checks::orientation(numbers),
        })
    }
}

impl AcceptedOutline<'_> {
    ghost use Rattle.reading.specs.Accepted.{accepted_corners};

    // How many corners it has.
    pub fn count(&self) -> usize
        ensures { result ≡ length (accepted_corners self.now) }
    {
        corners::count(self.numbers)
    }

    // Corner j, as it is held.
    pub fn corner(&self, j: usize) -> Corner
        requires { j < length (accepted_corners self.now) }
        ensures value { result ≡ corner (accepted_corners self.now) j }
        ensures in_range { InRange result }
    {
        corners::held_corner(self.numbers, self.orientation, j)
    }
}
