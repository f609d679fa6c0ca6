// Reading an outline from a list of numbers: the checks in their order, and the value that holds an accepted outline.
#![tactic(auto)]

pub mod accepted;
pub mod checks;
pub mod corners;
pub mod refusals;

ghost use Rattle.std.specs.Prelude.{◌≡◌};
ghost use Rattle.outline.specs.code.Either.{either_reading};
ghost use Rattle.outline.specs.code.Reading.{reading};

use crate::accepted::AcceptedOutline;
use outline::{EitherReading, Orientation, Outline, Refusal, Side};

// The strict reading: the outline that a counterclockwise list gives. A refusal names the side `whose`.
pub fn read(s: &[i32], whose: Option<Side>) -> Result<Outline, Refusal>
    ensures { result ≡ reading whose s.now }
{
    checks::check(s, whose)?;
    Ok(corners::held(s, Orientation::Counterclockwise))
}

// The default reading: the outline that a list of either orientation gives, as it is held, and that orientation.
pub fn read_either(s: &[i32], whose: Option<Side>) -> Result<EitherReading, Refusal>
    ensures { result ≡ either_reading whose s.now }
{
    let AcceptedOutline {
        numbers,
        orientation,
    } = AcceptedOutline::accept(s, whose)?;
    Ok(EitherReading {
        outline: corners::held(numbers, orientation),
        orientation,
    })
}
