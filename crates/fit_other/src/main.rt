// The fit program on another input than the example's: B has the worst corner, its nearest point is a corner of A, and
// coordinates are negative.
// It is a program of its own, since a program has one stored input.
// `tests/cases.py` writes the input and, by another way, what is to be written.
#![tactic(auto)]

use std::io;

fn main(rt: HostRuntime) -> io::Result<()> {
    fit_io::run(&rt)
}
