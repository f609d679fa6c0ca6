// The fit program: reads two outlines from standard input and writes their comparison.
#![tactic(auto)]

use std::io;

fn main(rt: HostRuntime) -> io::Result<()> {
    fit_io::run(&rt)
}
