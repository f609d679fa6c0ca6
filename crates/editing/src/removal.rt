// Removing a corner.
ghost use Rattle.std.specs.Prelude.{◌≡◌};
ghost use Rattle.plane.specs.Vector.{coordinates};
ghost use Rattle.outline.specs.Corners.{corners};
ghost use Rattle.edit.specs.code.Writing.{Removable};
ghost use Rattle.edit.specs.Removal.{without};
ghost use Rattle.edit.specs.code.Removal.{check_removal};

use crate::copy;
use outline::{Fault, Place, Refusal};
use reading::refusals::refuse;
use reading::{checks, corners};

// The count of an outline that no corner can be removed from.
const SMALLEST: usize = 3;

// Whether corner k of a list can be removed, with `room` places to write what remains.
pub fn check_removal(s: &[i32], k: usize, room: usize) -> Result<(), Refusal>
    ensures { result ≡ check_removal s.now k room }
{
    checks::check(s, None)?;
    let n = corners::count(s);
    if n <= k {
        return refuse(Fault::NoSuchCorner, None, Place::Nowhere);
    }
    if n == SMALLEST {
        return refuse(Fault::TooFew, None, Place::Nowhere);
    }
    if room != 2 * (n - 1) {
        return refuse(Fault::WrongLength, None, Place::Nowhere);
    }
    Ok(())
}

// Writes the corners of a list without corner k, in their order.
#[tactic(auto, using(crate::proofs::PartsLaws::sizes))]
pub fn write_without(s: &[i32], k: usize, out: &mut [i32])
    requires { Removable s.now k out.old }
    ensures { out.new ≡ coordinates (without k (corners s.now)) }
{
    let place = 2 * k;
    let end = 2 * corners::count(s);
    let (before, after) = out.split_at_mut(place);
    copy(&s[..place], before);
    copy(&s[place + 2..end], after);
}
