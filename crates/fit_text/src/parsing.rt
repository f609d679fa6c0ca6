// From the bytes of the input to what comparing its two outlines gives.
ghost use Rattle.std.specs.Prelude.{◌≡◌, ◌*◌, ◌≤◌, length, drop};
ghost use Rattle.text.specs.Words.{words};
ghost use Rattle.outline.specs.Corners.{most};
ghost use Rattle.fit_text.specs.Input.{numbers, outline, with_b, outcome, too_many};
ghost use Rattle.fit_text.specs.code.Input.{all_given, as_given, count_of};

use hausdorff::Report;
use outline::{MOST, Refusal};
use reading::corners::{MOST_NUMBERS, no_numbers};
use text::input;
use text::input::Next;

// How many steps are allowed: every comparison is done with so many.
const ALLOWANCE: u32 = 512;

// Why a text gives no outline: its corner count is above 256, or it cannot be read.
#[derive(Clone, Copy)]
pub enum ReadError {
    TooMany,
    Unreadable,
}

// Reads as many numbers as a list has places. Gives the place after them, if they can be read.
fn numbers(s: &[u8], from: usize, out: &mut [i32]) -> Option<usize>
    ensures { all_given s.now out.new result ≡ numbers (length out.old) (words (drop from s.now)) }
{
    let mut next = from;
    for place in out.iter_mut() {
        let Next { number, end } = input::next_number(s, next);
        *place = number?;
        next = end;
    }
    Some(next)
}

// Reads a corner count and the numbers of an outline to a list, whose length stays a clause, as in `traversal::walk`.
// Gives how many numbers, and the place after them.
fn outline(s: &[u8], from: usize, out: &mut [i32]) -> Result<(usize, usize), ReadError>
    requires { 2 * most ≤ length out.old }
    ensures room { count_of result ≤ length out.old }
    ensures given { as_given s.now out.new result ≡ outline (words (drop from s.now)) }
{
    let Next { number, end } = input::next_number(s, from);
    let corners = number.ok_or(ReadError::Unreadable)?;
    let Ok(corners) = usize::try_from(corners) else {
        return Err(ReadError::Unreadable);
    };
    if MOST < corners {
        return Err(ReadError::TooMany);
    }
    let count = 2 * corners;
    let next = numbers(s, end, &mut out[..count]).ok_or(ReadError::Unreadable)?;
    Ok((count, next))
}

// A list of 257 corners, which stands for an outline whose corner count is above 256: it gets 3.
fn too_many() -> [i32; MOST_NUMBERS + 2]
    ensures { result ≡ too_many }
{
    [0; MOST_NUMBERS + 2]
}

// What the text from a place on gives where the numbers of A are read: B's count and numbers, and nothing after them.
fn with_b(a: &[i32], s: &[u8], from: usize) -> Option<Result<Report, Refusal>>
    ensures { result ≡ with_b a.now (outline (words (drop from s.now))) }
{
    let mut b = no_numbers();
    match outline(s, from, &mut b) {
        Ok((count, next)) => {
            if !input::is_at_end(s, next) {
                return None;
            }
            Some(calls::compare(a, &b[..count], ALLOWANCE))
        }
        Err(ReadError::TooMany) => Some(calls::compare(a, &too_many(), ALLOWANCE)),
        Err(ReadError::Unreadable) => None,
    }
}

// What comparing the two outlines of a text gives, if it can be read.
pub fn read(s: &[u8]) -> Option<Result<Report, Refusal>>
    ensures { result ≡ outcome s.now }
{
    let mut a = no_numbers();
    match outline(s, 0, &mut a) {
        Ok((count, next)) => with_b(&a[..count], s, next),
        Err(ReadError::TooMany) => Some(calls::compare(&too_many(), &[], ALLOWANCE)),
        Err(ReadError::Unreadable) => None,
    }
}
