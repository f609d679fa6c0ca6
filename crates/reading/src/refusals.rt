// A refusal as what a check or a call gives.
ghost use Rattle.std.specs.Prelude.{◌≡◌, Err};

use outline::{Fault, Place, Refusal, Side};

// A refusal: the fault, the side that it is about, and the place.
pub fn refuse<T>(fault: Fault, side: Option<Side>, place: Place) -> Result<T, Refusal>
    ensures { result ≡ Err (record { fault = fault; side = side; place = place }) }
{
    Err(Refusal { fault, side, place })
}
