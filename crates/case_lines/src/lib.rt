// Lines of the programs that test, which more than one of them prints. (Functions and no `Display`: the types are of
// other crates.) Each part of a line but the first has a space before it.
#![tactic(auto)]

pub mod comparison;
pub mod edits;
pub mod status;

use outline::Refusal;
use std::fmt::Display;
use std::io;
use text::output::Text;

// What stands at every place of a list to write before a call.
pub const FILL: i32 = 77;

// The numbers of a list.
pub fn print_all<T: Display>(rt: &impl Print, numbers: &[T]) -> io::Result<()> {
    for number in numbers {
        print!(rt; " {number}")?;
    }
    Ok(())
}

// Ends a line with a list.
pub fn print_list<T: Display>(rt: &impl Print, numbers: &[T]) -> io::Result<()> {
    print!(rt; " list")?;
    print_all(rt, numbers)?;
    println!(rt; "")
}

pub fn print_refusal(rt: &impl Print, refusal: Refusal) -> io::Result<()> {
    print::write(rt, answer_text::refusal(Text::empty().bytes(b" "), refusal))
}
