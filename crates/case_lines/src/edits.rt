// The line of a call that edits an outline, with the list to write after it:
//     NAME done list NUMBER ..
//     NAME refused NUMBER [PLACE..] list NUMBER ..
use crate::{print_list, print_refusal};
use outline::Refusal;
use std::io;

fn print_verdict(rt: &impl Print, verdict: Result<(), Refusal>) -> io::Result<()> {
    match verdict {
        Ok(()) => print!(rt; " done"),
        Err(refusal) => print_refusal(rt, refusal),
    }
}

pub fn print_edit(
    rt: &impl Print,
    name: &[u8],
    verdict: Result<(), Refusal>,
    out: &[i32],
) -> io::Result<()> {
    rt.write_all(name)?;
    print_verdict(rt, verdict)?;
    print_list(rt, out)
}
