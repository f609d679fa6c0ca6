// The fit program from standard input to standard output, for `fit` and for the programs that run it on other inputs.
#![tactic(auto)]

ghost use Rattle.std.specs.Prelude.{◌≡◌, suc, length};
ghost use Rattle.fit_text.specs.Response.{most_bytes};

use std::io;

// Room for one byte above the limit: of a longer input no more need be read (`response-start` in
// `fit_text/proofs/ResponseLaws.antt`).
const ROOM: usize = fit_text::MOST_BYTES + 1;

// Its contract holds the room to the limit, and has the length alone, not the list of all the zeros.
fn room() -> [u8; ROOM]
    ensures { suc most_bytes ≡ length result }
{
    [0; ROOM]
}

// Reads two outlines from standard input and writes their comparison. Gives the error of a read or a write that fails.
pub fn run(rt: &(impl Input + Print)) -> io::Result<()> {
    let mut input = room();
    let count = standard_input::read_full(rt, &mut input)?;
    print::write(rt, fit_text::respond(&input[..count]))
}
