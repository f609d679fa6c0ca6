// The numbers of a stored input: decimal, a minus directly before the digits where there is one, and other bytes
// between them. Nothing here fails: past the end there are zeros, and a number that is too large loses its high
// bits.
#![tactic(auto)]

ghost use Rattle.std.specs.Prelude.{ℕ, ◌≡◌, [], List, ◌↔◌, IsTrue, OnOk, length, take, drop, pos, ◌%◌, ◌+◌, ◌*◌, ◌≤◌};
ghost use Rattle.case_input.specs.Cases.{Answers};
ghost use Rattle.case_input.specs.Number.{run, natural, signed, after_number, with_digit, signed_numbers, after_numbers, list_length, is_negative};

use std::io;
use std::marker::Model;

// More numbers than any list of an input has.
pub const LONGEST: usize = 520;

// The longest input, in bytes. Each program has its own `main`, which reads its stored input. (A fixed list, since there is no heap.)
const ROOM: usize = 1048576;

// Room for the bytes of an input. The length as a contract spares a caller's proof the list of all the zeros: with
// `[0; ROOM]` in `main` the check runs out of stack.
pub fn room() -> [u8; ROOM]
    ensures { 1048576 ≡ length result }
{
    [0; ROOM]
}

// A natural number with one digit more. (Not by `parse`, which fails where a number is too large.) ASCII's digits are
// 48 to 57, and 48 is 3 times 16.
fn with_digit(size: u32, digit: u8) -> u32
    ensures { result ≡ with_digit size digit }
{
    size.wrapping_mul(10).wrapping_add(u32::from(digit % 16))
}

// How many digits stand at the front, or other bytes. (A flag, as in `text::input::run`, of which the definition differs.)
fn run(s: &[u8], of_digits: bool) -> usize
    ensures value { result ≡ run of_digits s.now }
    ensures bound { result ≤ length s.now }
{
    s.iter()
        .take_while(|b| b.is_ascii_digit() == of_digits)
        .count()
}

// A number's low 31 bits.
fn low_bits(size: u32) -> i32
    ensures { result ≡ pos (size % 2147483648) }
{
    (size % 2147483648) as i32
}

// The bytes of an input that are not read yet. Their numbers are read in turn.
#[derive(Drop)]
pub struct Cursor<'a> {
    rest: &'a [u8],
}

impl<'a> Model for Cursor<'a> {
    ghost Value = { List ℕ };

    ghost view = { λ c. c.rest.now };
}

impl<'a> Cursor<'a> {
    pub fn new(bytes: &'a [u8]) -> Self
        ensures { result ≡ bytes.now }
    {
        Cursor { rest: bytes }
    }

    pub fn is_at_end(&self) -> bool
        ensures { IsTrue result ↔ (self.now ≡ []) }
    {
        self.rest.is_empty()
    }

    // Passes the digits that stand here, or the other bytes, and gives them.
    fn pass(&mut self, digits: bool) -> &'a [u8]
        ensures passed { result.now ≡ take (run digits self.old) self.old }
        ensures rest { self.new ≡ drop (run digits self.old) self.old }
    {
        let end = run(self.rest, digits);
        let (passed, rest) = self.rest.split_at(end);
        self.rest = rest;
        passed
    }

    // The next number without its sign, and whether it has a minus: a size may be above every i32.
    fn number(&mut self) -> (bool, u32)
        ensures sign { result.0 ≡ is_negative self.old }
        ensures size { result.1 ≡ natural self.old }
        ensures rest { self.new ≡ after_number self.old }
    {
        let is_negative = self.pass(false).ends_with(b"-");
        let size = self
            .pass(true)
            .iter()
            .fold(0, |size, digit| with_digit(size, *digit));
        (is_negative, size)
    }

    // The next number without its sign.
    pub fn natural(&mut self) -> u32
        ensures value { result ≡ natural self.old }
        ensures rest { self.new ≡ after_number self.old }
    {
        self.number().1
    }

    // The next number.
    pub fn signed(&mut self) -> i32
        ensures value { result ≡ signed self.old }
        ensures rest { self.new ≡ after_number self.old }
    {
        let (is_negative, size) = self.number();
        if is_negative && 0 < size {
            -1 - low_bits(size - 1)
        } else {
            low_bits(size)
        }
    }

    // The next two numbers as one of 64 bits, the high half first.
    pub fn wide(&mut self) -> usize
        ensures value { result ≡ natural self.old * 4294967296 + natural (after_number self.old) }
        ensures rest { self.new ≡ after_number (after_number self.old) }
    {
        (self.natural() as usize) * 4294967296 + self.natural() as usize
    }

    // As many numbers as a list has places, read to it.
    fn fill(&mut self, items: &mut [i32])
        ensures items { items.new ≡ signed_numbers (length items.old) self.old }
        ensures rest { self.new ≡ after_numbers (length items.old) self.old }
    {
        for item in items.iter_mut() {
            *item = self.signed();
        }
    }

    // A list: how many numbers it has, and these, as far as they find room.
    pub fn list<'b>(&mut self, room: &'b mut [i32]) -> &'b [i32]
        ensures items { result.now ≡ signed_numbers (list_length (length room.old) self.old) (after_number self.old) }
        ensures rest { self.new ≡ after_numbers (list_length (length room.old) self.old) (after_number self.old) }
    {
        let count = (self.natural() as usize).min(room.len());
        let items = &mut room[..count];
        self.fill(items);
        items
    }

    // Answers each case, of which there are as many as the next number says.
    pub fn for_each_case<F: FnMut(&mut Cursor) -> io::Result<()>>(
        &mut self,
        mut answer: F,
    ) -> io::Result<()>
        requires { F.IsAlwaysCallable answer }
        ensures { OnOk result ((last : F) × Answers F.FnMut (natural self.old) answer (after_number self.old) last self.new) }
    {
        for _ in 0..self.natural() {
            answer(self)?;
        }
        Ok(())
    }
}
