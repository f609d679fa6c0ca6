// `compare_records` and its C function on generated stores of linked records. The input has the number of cases, and for
// each the length of the store and its numbers, and four numbers, which `Given` names. Each call prints one line.
// `tests/record_cases.py` writes the input and, by another way, what is to be printed.
#![tactic(auto)]

use case_input::Cursor;
use case_lines::comparison;
use case_lines::status::{LONGEST_RESULT, RESULT_FILL, print_call};
use std::io;

// More numbers than any store of the input has.
const LONGEST_STORE: usize = 2401;

// The numbers of a case beside its store.
#[derive(Clone, Copy)]
struct Given {
    a_start: i32,
    b_start: i32,
    allowance: u32,
    result_length: usize,
}

impl Given {
    fn read(case: &mut Cursor) -> Self {
        Given {
            a_start: case.signed(),
            b_start: case.signed(),
            allowance: case.natural(),
            result_length: case.natural() as usize,
        }
    }
}

// Makes both calls for one case.
fn answer_calls(rt: &impl Print, store: &[i32], given: Given) -> io::Result<()> {
    let answer = calls::compare_records(store, given.a_start, given.b_start, given.allowance);
    comparison::print_comparison(rt, answer)?;
    let room = &mut [RESULT_FILL; LONGEST_RESULT];
    print_call(rt, b"c_compare_records", room, given.result_length, |res| {
        ravinebowl::ravinebowl_compare_records(
            store,
            given.a_start,
            given.b_start,
            given.allowance,
            res,
        )
    })
}

fn answer_case(rt: &impl Print, case: &mut Cursor) -> io::Result<()> {
    let mut room = [0; LONGEST_STORE];
    let store = case.list(&mut room);
    answer_calls(rt, store, Given::read(case))
}

fn main(rt: HostRuntime) -> io::Result<()> {
    let mut room = case_input::room();
    let count = standard_input::read_full(&rt, &mut room)?;
    Cursor::new(&room[..count]).for_each_case(|case| answer_case(&rt, case))
}
