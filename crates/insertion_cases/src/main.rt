// `insert_corner` and its C function on generated cases, and inserting and removing one after the other. The input has
// the number of cases, and for each the length of the outline's list and its numbers, and six numbers, which `Given` names.
// Each case prints four lines: `insert`, `c_insert`, and the second of two calls, `insert_remove` and `remove_insert`, or
// `none` after the name where the first is refused. `tests/insertion_cases.py` writes the input and, by another way, what is
// to be printed.
#![tactic(auto)]

use case_input::{Cursor, LONGEST};
use case_lines::FILL;
use case_lines::edits::print_edit;
use case_lines::status::print_call;
use plane::Corner;
use std::io;

// The numbers of a case beside its list. The place of the corner is there in two parts. `back_length` is the length of the
// list that the second of two calls is to write.
#[derive(Clone, Copy)]
struct Given {
    place: usize,
    v: Corner,
    out_length: usize,
    back_length: usize,
}

impl Given {
    fn read(case: &mut Cursor) -> Self {
        Given {
            place: case.wide(),
            v: Corner {
                x: case.signed(),
                y: case.signed(),
            },
            out_length: case.natural() as usize,
            back_length: case.natural() as usize,
        }
    }
}

// Inserts, and says whether that was done.
fn insert(
    rt: &impl Print,
    a: &[i32],
    place: usize,
    v: Corner,
    out: &mut [i32],
) -> io::Result<bool> {
    let verdict = calls::insert_corner(a, place, v, out);
    print_edit(rt, b"insert", verdict, out)?;
    Ok(verdict.is_ok())
}

fn c_insert(rt: &impl Print, a: &[i32], given: Given) -> io::Result<()> {
    let v = given.v;
    print_call(
        rt,
        b"c_insert",
        &mut [FILL; LONGEST],
        given.out_length,
        |out| { ravinebowl::ravinebowl_insert_corner(a, given.place, v.x, v.y, out) },
    )
}

// Removes what was inserted.
fn insert_remove(rt: &impl Print, a: &[i32], given: Given) -> io::Result<()> {
    let mut room = [FILL; LONGEST];
    let back = &mut room[..given.back_length.min(LONGEST)];
    let verdict = calls::remove_corner(a, given.place, back);
    print_edit(rt, b"insert_remove", verdict, back)
}

// Inserts, both ways, and removes what was inserted.
fn answer_insert(rt: &impl Print, a: &[i32], given: Given) -> io::Result<()> {
    let mut room = [FILL; LONGEST];
    let out = &mut room[..given.out_length.min(LONGEST)];
    let is_inserted = insert(rt, a, given.place, given.v, out)?;
    c_insert(rt, a, given)?;
    if is_inserted {
        insert_remove(rt, out, given)
    } else {
        println!(rt; "insert_remove none")
    }
}

// The corner of a list with a number, or (0, 0).
fn corner_at(a: &[i32], i: usize) -> Corner {
    match a.chunks_exact(2).nth(i) {
        Some([x, y]) => Corner { x: *x, y: *y },
        _ => Corner { x: 0, y: 0 },
    }
}

// Removes a corner, and inserts it again.
fn remove_insert(
    rt: &impl Print,
    a: &[i32],
    place: usize,
    out: &mut [i32],
    back: &mut [i32],
) -> io::Result<()> {
    let v = corner_at(a, place);
    match calls::remove_corner(a, place, out) {
        Err(_) => println!(rt; "remove_insert none"),
        Ok(()) => {
            let verdict = calls::insert_corner(out, place, v, back);
            print_edit(rt, b"remove_insert", verdict, back)
        }
    }
}

// The line of removing. The list for what remains is just as long as that.
fn answer_remove(rt: &impl Print, a: &[i32], given: Given) -> io::Result<()> {
    let mut out_room = [FILL; LONGEST];
    let mut back_room = [FILL; LONGEST];
    let out = &mut out_room[..a.len().saturating_sub(2).min(LONGEST)];
    let back = &mut back_room[..given.back_length.min(LONGEST)];
    remove_insert(rt, a, given.place, out, back)
}

// Makes the calls for one case.
fn answer_case(rt: &impl Print, case: &mut Cursor) -> io::Result<()> {
    let mut room = [0; LONGEST];
    let a = case.list(&mut room);
    let given = Given::read(case);
    answer_insert(rt, a, given)?;
    answer_remove(rt, a, given)
}

fn main(rt: HostRuntime) -> io::Result<()> {
    let mut room = case_input::room();
    let count = standard_input::read_full(&rt, &mut room)?;
    Cursor::new(&room[..count]).for_each_case(|case| answer_case(&rt, case))
}
