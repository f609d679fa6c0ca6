// `convex_hull` and its C function on generated points, and the hull of a hull's corners. The input has the number of cases,
// and for each the length of the list of points and its numbers, and three numbers, which `Given` names. Each case prints
// three lines, `hull`, `c_hull`, and `hull_again`, which is `none` where the first call is refused:
//     NAME COUNT list NUMBER .. marks NUMBER ..
//     NAME refused NUMBER [PLACE] list NUMBER .. marks NUMBER ..
//     c_hull CODE SIDE PLACES FIRST SECOND list NUMBER .. marks NUMBER .. result NUMBER ..
// `tests/hull_cases.py` writes the input and, by another way, what is to be printed.
#![tactic(auto)]

use case_input::{Cursor, LONGEST};
use case_lines::status::{LONGEST_RESULT, RESULT_FILL, print_status};
use case_lines::{FILL, print_all, print_refusal};
use outline::Refusal;
use std::io;

// The lengths of the lists to write of a case.
#[derive(Clone, Copy)]
struct Given {
    out_length: usize,
    marks_length: usize,
    result_length: usize,
}

impl Given {
    fn read(case: &mut Cursor) -> Self {
        Given {
            out_length: case.natural() as usize,
            marks_length: case.natural() as usize,
            result_length: case.natural() as usize,
        }
    }
}

// The lists for corners and for marks.
fn print_lists(rt: &impl Print, out: &[i32], marks: &[i32]) -> io::Result<()> {
    print!(rt; " list")?;
    print_all(rt, out)?;
    print!(rt; " marks")?;
    print_all(rt, marks)
}

fn print_answer(rt: &impl Print, answer: Result<usize, Refusal>) -> io::Result<()> {
    match answer {
        Ok(count) => print!(rt; " {count}"),
        Err(refusal) => print_refusal(rt, refusal),
    }
}

// Makes the call and prints its line. Gives the corner count, if it is not refused.
fn hull(
    rt: &impl Print,
    name: &[u8],
    points: &[i32],
    out: &mut [i32],
    marks: &mut [i32],
) -> io::Result<Option<usize>> {
    let answer = calls::convex_hull(points, out, marks);
    rt.write_all(name)?;
    print_answer(rt, answer)?;
    print_lists(rt, out, marks)?;
    println!(rt; "")?;
    Ok(answer.ok())
}

// The line of the C function.
fn c_hull(rt: &impl Print, points: &[i32], given: Given) -> io::Result<()> {
    let mut out_room = [FILL; LONGEST];
    let mut marks_room = [FILL; LONGEST];
    let mut result_room = [RESULT_FILL; LONGEST_RESULT];
    let out = &mut out_room[..given.out_length.min(LONGEST)];
    let marks = &mut marks_room[..given.marks_length.min(LONGEST)];
    let res = &mut result_room[..given.result_length.min(LONGEST_RESULT)];
    let returned = ravinebowl::ravinebowl_convex_hull(points, out, marks, res);
    print_status(rt, b"c_hull", returned)?;
    print_lists(rt, out, marks)?;
    print!(rt; " result")?;
    print_all(rt, res)?;
    println!(rt; "")
}

// The line of the hull of the corners just written.
fn answer_again(rt: &impl Print, corners: &[i32]) -> io::Result<()> {
    if LONGEST < corners.len() {
        return Ok(());
    }
    let length = corners.len();
    let mut out = [FILL; LONGEST];
    let mut marks = [FILL; LONGEST];
    hull(
        rt,
        b"hull_again",
        corners,
        &mut out[..length],
        &mut marks[..length / 2],
    )?;
    Ok(())
}

// Makes the calls for one case.
fn answer_case(rt: &impl Print, case: &mut Cursor) -> io::Result<()> {
    let mut room = [0; LONGEST];
    let mut out_room = [FILL; LONGEST];
    let mut marks_room = [FILL; LONGEST];
    let points = case.list(&mut room);
    let given = Given::read(case);
    let out = &mut out_room[..given.out_length.min(LONGEST)];
    let marks = &mut marks_room[..given.marks_length.min(LONGEST)];
    let count = hull(rt, b"hull", points, out, marks)?;
    c_hull(rt, points, given)?;
    match count {
        Some(n) if n <= out.len() / 2 => answer_again(rt, &out[..2 * n]),
        _ => println!(rt; "hull_again none"),
    }
}

fn main(rt: HostRuntime) -> io::Result<()> {
    let mut room = case_input::room();
    let count = standard_input::read_full(&rt, &mut room)?;
    Cursor::new(&room[..count]).for_each_case(|case| answer_case(&rt, case))
}
