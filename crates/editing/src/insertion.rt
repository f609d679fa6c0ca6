// Inserting a point as a corner.
ghost use Rattle.std.specs.Prelude.{◌≡◌, ◌≤◌, ◌<◌, length};
ghost use Rattle.plane.specs.Range.{InRange};
ghost use Rattle.plane.specs.Vector.{coordinates};
ghost use Rattle.outline.specs.Convex.{AllInRange};
ghost use Rattle.outline.specs.Corners.{corners, fewest, most};
ghost use Rattle.edit.specs.Insertion.{inserted};
ghost use Rattle.edit.specs.code.Insertion.{check_placing, check_result, check_insertion};
ghost use Rattle.edit.specs.code.Writing.{Insertable};

use crate::copy;
use outline::{Fault, MOST, Place, Refusal};
use plane::Corner;
use reading::refusals::refuse;
use reading::{checks, corners};

// Writes the corners of a list with v as corner k, in their order.
#[tactic(auto, using(crate::proofs::PartsLaws::sizes))]
pub fn write_with(s: &[i32], k: usize, v: Corner, out: &mut [i32])
    requires { Insertable s.now k v out.old }
    ensures { out.new ≡ coordinates (inserted k v (corners s.now)) }
{
    let place = 2 * k;
    let end = 2 * corners::count(s);
    let (before, rest) = out.split_at_mut(place);
    let (inserted, after) = rest.split_at_mut(2);
    copy(&s[..place], before);
    copy(&[v.x, v.y], inserted);
    copy(&s[place..end], after);
}

// 8, 7, 3 and 9, of a list, a place, a point and the length of the list to write.
fn check_placing(s: &[i32], k: usize, v: Corner, room: usize) -> Result<(), Refusal>
    requires { length (corners s.now) ≤ most }
    ensures { result ≡ check_placing (corners s.now) k v room }
{
    let n = corners::count(s);
    if n < k {
        return refuse(Fault::NoSuchCorner, None, Place::Nowhere);
    }
    if !plane::in_range(v) {
        return refuse(Fault::PointOutOfRange, None, Place::Nowhere);
    }
    if n == MOST {
        return refuse(Fault::TooMany, None, Place::Nowhere);
    }
    if room != 2 * (n + 1) {
        return refuse(Fault::WrongLength, None, Place::Nowhere);
    }
    Ok(())
}

// 5 and 6 of the result, which is made in a list of its own: a refused call writes to no list that it is lent.
fn check_result(s: &[i32], k: usize, v: Corner) -> Result<(), Refusal>
    requires fewest_in_bounds { fewest ≤ length (corners s.now) }
    requires s_len_bound { length (corners s.now) < most }
    requires all_in_range { AllInRange (corners s.now) }
    requires k_in_bounds { k ≤ length (corners s.now) }
    requires in_range { InRange v }
    ensures { result ≡ check_result (inserted k v (corners s.now)) }
{
    let length = 2 * (corners::count(s) + 1);
    let mut result = corners::no_numbers();
    write_with(s, k, v, &mut result[..length]);
    checks::check_shape(&result[..length], None)
}

// Whether v can be inserted as corner k of a list, with `room` places to write the result.
pub fn check_insertion(s: &[i32], k: usize, v: Corner, room: usize) -> Result<(), Refusal>
    ensures { result ≡ check_insertion s.now k v room }
{
    checks::check(s, None)?;
    check_placing(s, k, v, room)?;
    check_result(s, k, v)
}
