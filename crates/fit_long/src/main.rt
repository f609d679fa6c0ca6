// The fit program on an input of more than 16 KiB, of which the first 16 KiB alone would be answered.
// It is a program of its own, since a program has one stored input.
// `tests/cases.py` writes the input and, by another way, what is to be written.
#![tactic(auto)]

use std::io;

fn main(rt: HostRuntime) -> io::Result<()> {
    fit_io::run(&rt)
}
