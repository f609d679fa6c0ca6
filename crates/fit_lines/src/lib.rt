// A comparison as the lines that the fit program writes. No `Display`, for the reason that `answer_text` gives.
#![tactic(auto)]

ghost use Rattle.std.specs.Prelude.{◌≡◌};
ghost use Rattle.text.specs.code.Output.{appended};
ghost use Rattle.fit_lines.specs.Lines.{gap_line, number_line, from_line, to_line};
ghost use Rattle.fit_lines.specs.Lines.{side_lines, done_text, report_text, comparison_text};

use hausdorff::{CornerGap, Done, Report};
use integers::fraction::Fraction;
use outline::Refusal;
use text::output::Text;

fn gap_line(t: Text, gap: Fraction) -> Text
    ensures { result ≡ appended t (gap_line gap) }
{
    answer_text::fraction(t.bytes(b"gap "), gap).bytes(b"\n")
}

// A word and a number.
fn number_line(t: Text, word: &[u8], n: u64) -> Text
    ensures { result ≡ appended t (number_line word.now n) }
{
    t.bytes(word).natural(n).bytes(b"\n")
}

// The corner that the gap is from.
fn from_line(t: Text, found: CornerGap) -> Text
    ensures { result ≡ appended t (from_line found) }
{
    answer_text::corner(t.bytes(b"from "), found.side, found.corner).bytes(b"\n")
}

// What is nearest to it: the feature and the point.
fn to_line(t: Text, found: CornerGap) -> Text
    ensures { result ≡ appended t (to_line found) }
{
    let t = answer_text::feature(t.bytes(b"to "), found.feature).bytes(b" at ");
    answer_text::point(t, found.point).bytes(b"\n")
}

// The answer of a side.
fn side_lines(t: Text, found: CornerGap) -> Text
    ensures { result ≡ appended t (side_lines found) }
{
    to_line(from_line(t, found), found)
}

fn done(t: Text, done: Done) -> Text
    ensures { result ≡ appended t (done_text done) }
{
    let t = number_line(gap_line(t, done.answer.gap), b"mm ", done.clearance);
    let t = side_lines(side_lines(t, done.sides.a), done.sides.b);
    number_line(t, b"steps ", done.steps as u64)
}

// The seven lines of a comparison that is done. For one that is spent there are none.
fn report(t: Text, report: Report) -> Text
    ensures { result ≡ appended t (report_text report) }
{
    match report {
        Report::Spent(_) => t,
        Report::Done(d) => done(t, d),
    }
}

// A refusal in one line, or the lines of what is reported.
pub fn comparison(t: Text, comparison: Result<Report, Refusal>) -> Text
    ensures { result ≡ appended t (comparison_text comparison) }
{
    match comparison {
        Err(r) => answer_text::refusal(t, r).bytes(b"\n"),
        Ok(r) => report(t, r),
    }
}
