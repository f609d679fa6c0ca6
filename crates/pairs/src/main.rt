// Generated pairs of lists, compared through the public call with several allowances each. For each pair the input
// has the length of A's list and its numbers, the length of B's list and its numbers, and the number of allowances
// and these. Each comparison prints one line (`case_lines::comparison`). `tests/pairs.py` writes the input and, by another
// way, what is to be printed.
#![tactic(auto)]

ghost use Rattle.std.specs.Prelude.{◌<◌, IfOk, length};

use case_input::{Cursor, LONGEST};
use case_lines::comparison;
use std::io;

// Compares the pair that is next with each of its allowances.
fn compare_pair(rt: &impl Print, pair: &mut Cursor) -> io::Result<()>
    ensures { IfOk result (λ _. 0 < length pair.old → length pair.new < length pair.old) }
{
    let mut a_room = [0; LONGEST];
    let mut b_room = [0; LONGEST];
    let a = pair.list(&mut a_room);
    let b = pair.list(&mut b_room);
    for _ in 0..pair.natural() {
        comparison::print_comparison(rt, calls::compare(a, b, pair.natural()))?;
    }
    Ok(())
}

fn compare_pairs(rt: &impl Print, pairs: &mut Cursor) -> io::Result<()> {
    while !pairs.is_at_end() {
        compare_pair(rt, pairs)?;
    }
    Ok(())
}

fn main(rt: HostRuntime) -> io::Result<()> {
    let mut room = case_input::room();
    let count = standard_input::read_full(&rt, &mut room)?;
    compare_pairs(&rt, &mut Cursor::new(&room[..count]))
}
