// `read_outline`, `read_outline_strict`, `nearest_point`, `remove_corner`, `mismatch` and four C functions over lists on
// generated cases (`pairs` runs `compare`, `record_cases` what takes linked records, and `insertion_cases` what inserts a
// corner). The input has the number of cases, and for each the length of A's list and its numbers, the length of B's list
// and its numbers, and nine numbers, which `Given` names. Each call prints one line. `tests/call_cases.py` writes the input
// and, by another way, what is to be printed.
#![tactic(auto)]

mod c_functions;
mod rattle_calls;
mod report;

use case_input::{Cursor, LONGEST};
use plane::Corner;
use std::io;

// The numbers of a case beside its lists. A corner number is there in two parts.
#[derive(Clone, Copy)]
struct Given {
    v: Corner,
    nearest_length: usize,
    corner: usize,
    out_length: usize,
    allowance: u32,
    compare_length: usize,
    mismatch_length: usize,
}

impl Given {
    fn read(case: &mut Cursor) -> Self {
        Given {
            v: Corner {
                x: case.signed(),
                y: case.signed(),
            },
            nearest_length: case.natural() as usize,
            corner: case.wide(),
            out_length: case.natural() as usize,
            allowance: case.natural(),
            compare_length: case.natural() as usize,
            mismatch_length: case.natural() as usize,
        }
    }
}

// Makes every call for one case.
fn answer_case(rt: &impl Print, case: &mut Cursor) -> io::Result<()> {
    let mut a_room = [0; LONGEST];
    let mut b_room = [0; LONGEST];
    let a = case.list(&mut a_room);
    let b = case.list(&mut b_room);
    let given = Given::read(case);
    rattle_calls::read(rt, a)?;
    rattle_calls::read_strict(rt, a)?;
    rattle_calls::nearest(rt, given.v, a)?;
    rattle_calls::remove(rt, a, given.corner, given.out_length)?;
    c_functions::remove(rt, a, given.corner, given.out_length)?;
    c_functions::nearest(rt, given.v, a, given.nearest_length)?;
    c_functions::compare(rt, a, b, given.allowance, given.compare_length)?;
    rattle_calls::mismatch(rt, a, b)?;
    c_functions::mismatch(rt, a, b, given.mismatch_length)
}

fn main(rt: HostRuntime) -> io::Result<()> {
    let mut room = case_input::room();
    let count = standard_input::read_full(&rt, &mut room)?;
    Cursor::new(&room[..count]).for_each_case(|case| answer_case(&rt, case))
}
