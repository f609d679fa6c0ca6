// The words of a text and the numbers among them.
ghost use Rattle.std.specs.Prelude.{◌+◌, ◌<◌, cond, Some, None, ◌≡◌, drop};
ghost use Rattle.std.specs.List.{prefix_len};
ghost use Rattle.text.specs.Number.{is_digit, with_digit, natural, number, first_number};
ghost use Rattle.text.specs.Words.{is_separator, words};
ghost use Rattle.text.specs.code.Words.{is_of, run, is_empty};

// The most digits of a number.
const MOST_DIGITS: usize = 5;

// The number that the next word of a text gives, if it gives one, and the place after the word.
#[derive(Clone, Copy)]
pub struct Next {
    pub number: Option<i32>,
    pub end: usize,
}

// A number with one digit more, where the byte is a digit.
fn with_digit(value: u32, b: u8) -> Option<u32>
    requires { value < 10000 }
    ensures { result ≡ cond (is_digit b) (Some (with_digit value b)) None }
{
    let digit = (b as char).to_digit(10)?;
    Some(value * 10 + digit)
}

// The value of one to five digits. (Not by `parse`, which takes a plus and any number of digits.)
fn natural(w: &[u8]) -> Option<i32>
    ensures { result ≡ natural w.now }
{
    if w.is_empty() || MOST_DIGITS < w.len() {
        return None;
    }
    let mut value = 0;
    for &b in w {
        value = with_digit(value, b)?;
    }
    Some(value as i32)
}

// The number that a word gives: an optional minus, and one to five digits.
fn number(w: &[u8]) -> Option<i32>
    ensures { result ≡ number w.now }
{
    match w.strip_prefix(b"-") {
        Some(digits) => Some(-natural(digits)?),
        None => natural(w),
    }
}

// Spaces and line ends split words.
fn is_separator(b: u8) -> bool
    ensures { result ≡ is_separator b }
{
    matches!(b, b' ' | b'\n')
}

// Whether a byte is a separator, or is not.
fn is_of(separators: bool, b: u8) -> bool
    ensures { result ≡ is_of separators b }
{
    is_separator(b) == separators
}

// How many separators a text begins with, or how many other bytes. (A flag: of a closure each clause would have to say
// which bytes it takes.)
fn run(s: &[u8], separators: bool) -> usize
    ensures { result ≡ prefix_len (is_of separators) s.now }
{
    s.iter().take_while(|b| is_of(separators, **b)).count()
}

// Where the separators that stand at a place end, or the other bytes.
fn run_end(s: &[u8], from: usize, separators: bool) -> usize
    ensures { result ≡ from + run separators (drop from s.now) }
{
    let Some(rest) = s.get(from..) else {
        return from;
    };
    from + run(rest, separators)
}

// The number that the first word from a place on gives, and a place from which the words after it can be read.
pub fn next_number(s: &[u8], from: usize) -> Next
    ensures number { result.number ≡ first_number (words (drop from s.now)) }
    ensures end { words (drop result.end s.now) ≡ drop 1 (words (drop from s.now)) }
{
    let start = run_end(s, from, true);
    let end = run_end(s, start, false);
    let number = if start < end {
        number(&s[start..end])
    } else {
        None
    };
    Next { number, end }
}

// Whether no word stands from a place on.
pub fn is_at_end(s: &[u8], from: usize) -> bool
    ensures { result ≡ is_empty (words (drop from s.now)) }
{
    s.len() <= run_end(s, from, true)
}
