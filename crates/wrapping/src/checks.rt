// The checks of a list of points, and of the lists to write.
ghost use Rattle.std.specs.Prelude.{◌≡◌};
ghost use Rattle.hull.specs.code.Call.{check_lengths, check_points};

use outline::{Fault, MOST, Place, Refusal};
use reading::checks::check_range;
use reading::corners::count;
use reading::refusals::refuse;

// 9: the list for the corners is not as long as the list of points, or the one for the marks has not one place for each.
fn check_lengths(s: &[i32], room: usize, mark_room: usize) -> Result<(), Refusal>
    ensures { result ≡ check_lengths s.now room mark_room }
{
    if room != s.len() {
        return refuse(Fault::WrongLength, None, Place::Nowhere);
    }
    if mark_room != count(s) {
        return refuse(Fault::WrongLength, None, Place::Nowhere);
    }
    Ok(())
}

// 1, 3, 4 and 9, of a list and the lengths of the two lists to write.
pub fn check_points(s: &[i32], room: usize, mark_room: usize) -> Result<(), Refusal>
    ensures { result ≡ check_points s.now room mark_room }
{
    if s.len() % 2 == 1 {
        return refuse(Fault::OddLength, None, Place::Nowhere);
    }
    if MOST < count(s) {
        return refuse(Fault::TooMany, None, Place::Nowhere);
    }
    check_range(s, None)?;
    check_lengths(s, room, mark_room)
}
