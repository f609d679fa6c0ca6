// Cases of the fit program: its answers to the inputs that stand in this program's input, one after the other, each
// ended by byte 255. `tests/cases.py` writes them and, by another way, what is to be written.
#![tactic(auto)]

ghost use Rattle.std.specs.Prelude.{◌<◌, length};

use std::io;

const END: u8 = 255;

// The longest input, in bytes.
const ROOM: usize = 262144;

// The first case, and what stands after its end byte.
fn first_case(s: &[u8]) -> (&[u8], &[u8])
    requires { 0 < length s.now }
    ensures { length result.1.now < length s.now }
{
    match s.iter().position(|b| *b == END) {
        Some(end) => (&s[..end], &s[end + 1..]),
        None => (s, &[]),
    }
}

// `for case in s.split_inclusive(..)` gets no proof here: the check refuses what it makes of the loop under `impl Print`.
fn respond_each(rt: &impl Print, s: &[u8]) -> io::Result<()> {
    let mut rest = s;
    while !rest.is_empty() {
        let (case, after) = first_case(rest);
        print::write(rt, fit_text::respond(case))?;
        rest = after;
    }
    Ok(())
}

fn main(rt: HostRuntime) -> io::Result<()> {
    let mut text = [0; ROOM];
    let count = standard_input::read_full(&rt, &mut text)?;
    respond_each(&rt, &text[..count])
}
