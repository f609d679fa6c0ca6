// The calls in Rattle but `compare`:
//     read ORIENTATION COUNT X Y ..
//     read_strict COUNT X Y ..
//     nearest FEATURE GAP X Y
//     remove done list NUMBER ..
//     mismatch SUM
// A refusal stands after the first word, as `refused NUMBER [PLACE..]`, with the side before the number where there are
// two outlines; in removing the list to write follows it.
// (A function for each call: they differ in all that they print but the name.)
use crate::report;
use case_input::LONGEST;
use case_lines::edits::print_edit;
use case_lines::{FILL, print_refusal};
use outline::Orientation;
use plane::Corner;
use std::io;

fn print_orientation(rt: &impl Print, orientation: Orientation) -> io::Result<()> {
    match orientation {
        Orientation::Counterclockwise => print!(rt; " counterclockwise"),
        Orientation::Clockwise => print!(rt; " clockwise"),
    }
}

pub fn read(rt: &impl Print, a: &[i32]) -> io::Result<()> {
    print!(rt; "read")?;
    match calls::read_outline(a) {
        Ok(reading) => {
            print_orientation(rt, reading.orientation)?;
            report::print_outline(rt, reading.outline)?;
        }
        Err(refusal) => print_refusal(rt, refusal)?,
    }
    println!(rt; "")
}

pub fn read_strict(rt: &impl Print, a: &[i32]) -> io::Result<()> {
    print!(rt; "read_strict")?;
    match calls::read_outline_strict(a) {
        Ok(outline) => report::print_outline(rt, outline)?,
        Err(refusal) => print_refusal(rt, refusal)?,
    }
    println!(rt; "")
}

pub fn nearest(rt: &impl Print, v: Corner, a: &[i32]) -> io::Result<()> {
    print!(rt; "nearest")?;
    match calls::nearest_point(v, a) {
        Ok(found) => report::print_nearest(rt, found)?,
        Err(refusal) => print_refusal(rt, refusal)?,
    }
    println!(rt; "")
}

// The list to write has the given length, as far as there is room.
pub fn remove(rt: &impl Print, a: &[i32], corner: usize, length: usize) -> io::Result<()> {
    let mut room = [FILL; LONGEST];
    let out = &mut room[..length.min(LONGEST)];
    let verdict = calls::remove_corner(a, corner, out);
    print_edit(rt, b"remove", verdict, out)
}

pub fn mismatch(rt: &impl Print, a: &[i32], b: &[i32]) -> io::Result<()> {
    print!(rt; "mismatch")?;
    match calls::mismatch(a, b) {
        Ok(sum) => print!(rt; " {sum}")?,
        Err(refusal) => print_refusal(rt, refusal)?,
    }
    println!(rt; "")
}
