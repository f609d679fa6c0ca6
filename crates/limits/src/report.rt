// The lines of the program: a name, then `taken` or `refused` with number and place, then how many corners
// were read, or the list that was lent to a removal.
use case_lines::print_list;
use outline::Refusal;
use std::io;
use text::output::Text;

// The longest list that is printed.
const LONGEST_PRINTED: usize = 10;

// The number and the place. A call with one outline names no side.
fn print_refusal(rt: &impl Print, refusal: Refusal) -> io::Result<()> {
    let t = Text::empty()
        .bytes(b"refused ")
        .natural(u32::from(refusal.fault) as u64);
    print::write(rt, answer_text::place(t, b" at ", refusal.place))
}

fn print_verdict(rt: &impl Print, name: &str, verdict: Result<(), Refusal>) -> io::Result<()> {
    print!(rt; "{name}: ")?;
    match verdict {
        Ok(()) => print!(rt; "taken"),
        Err(refusal) => print_refusal(rt, refusal),
    }
}

// Reads a list strictly.
pub fn reading(rt: &impl Print, name: &str, s: &[i32]) -> io::Result<()> {
    let reading = calls::read_outline_strict(s);
    print_verdict(rt, name, reading.map(|_| ()))?;
    if let Ok(outline) = reading {
        print!(rt; ", {} corners", outline.count)?;
    }
    println!(rt; "")
}

// Removes corner k of a list. A long list is not printed.
pub fn removal(
    rt: &impl Print,
    name: &str,
    s: &[i32],
    k: usize,
    out: &mut [i32],
) -> io::Result<()> {
    print_verdict(rt, name, calls::remove_corner(s, k, out))?;
    if LONGEST_PRINTED < out.len() {
        return println!(rt; "");
    }
    print!(rt; ",")?;
    print_list(rt, out)
}
