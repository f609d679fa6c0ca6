// The examples about reading an outline strictly and removing a corner, and cases at the limits, run through the
// public calls. Each prints one line.
#![tactic(auto)]

mod large;
mod report;

use std::io;

const SQUARE: [i32; 8] = [0, 0, 4, 0, 4, 4, 0, 4];

const TRIANGLE: [i32; 6] = [0, 0, 4, 0, 0, 4];

// The square with the largest coordinates.
const LARGEST: [i32; 8] = [-16000, -16000, 16000, -16000, 16000, 16000, -16000, 16000];

// A star, which turns left at each corner.
const STAR: [i32; 10] = [0, 3, -2, -3, 3, 1, -3, 1, 2, -3];

// 4: the ends of the range, the first numbers past them, and i32's ends.
fn coordinates(rt: &impl Print) -> io::Result<()> {
    report::reading(rt, "16000", &LARGEST)?;
    report::reading(
        rt,
        "x 16001",
        &[-16000, -16000, 16000, -16000, 16001, 16000, -16000, 16000],
    )?;
    report::reading(
        rt,
        "y -16001",
        &[-16000, -16000, 16000, -16001, 16000, 16000, -16000, 16000],
    )?;
    report::reading(rt, "x 2147483647", &[0, 0, 4, 0, 4, 4, 2147483647, 4])?;
    report::reading(rt, "y -2147483648", &[0, -2147483648, 4, 0, 4, 4, 0, 4])?;
    report::reading(
        rt,
        "both",
        &[0, 0, 2147483647, -2147483648, -2147483648, 2147483647],
    )
}

// 1, 2 and 3: the length of the list. 1 comes before the others.
fn lengths(rt: &impl Print) -> io::Result<()> {
    report::reading(rt, "empty list", &[])?;
    report::reading(rt, "one value", &[0])?;
    report::reading(rt, "2 corners", &[0, 0, 4, 0])?;
    report::reading(rt, "3 corners", &TRIANGLE)?;
    report::reading(rt, "515 values", &[0; 515])
}

// 5: two neighbours are equal. Equal corners that are no neighbours are 6.
fn equal_corners(rt: &impl Print) -> io::Result<()> {
    report::reading(rt, "corners 1 and 2 equal", &[0, 0, 4, 0, 4, 0, 0, 4])?;
    report::reading(rt, "corners 3 and 0 equal", &[0, 0, 4, 0, 4, 4, 0, 0])?;
    report::reading(rt, "corners 1 and 3 equal", &[0, 0, 4, 0, 4, 4, 4, 0, 0, 4])
}

// 6: a corner that is not strictly left of an edge.
fn not_convex(rt: &impl Print) -> io::Result<()> {
    report::reading(rt, "star", &STAR)?;
    report::reading(rt, "straight corner", &[0, 0, 2, 0, 4, 0, 0, 3])?;
    report::reading(rt, "clockwise", &[0, 0, 0, 4, 4, 0])
}

// A removal writes the other corners.
fn removals(rt: &impl Print) -> io::Result<()> {
    report::removal(rt, "square without corner 1", &SQUARE, 1, &mut [7; 6])?;
    report::removal(rt, "16000 without corner 3", &LARGEST, 3, &mut [7; 6])
}

// 8, 2, 9 and the refusals of reading leave the list as it was.
fn refused_removals(rt: &impl Print) -> io::Result<()> {
    report::removal(rt, "square without corner 4", &SQUARE, 4, &mut [7; 6])?;
    report::removal(rt, "triangle without corner 3", &TRIANGLE, 3, &mut [7; 4])?;
    report::removal(rt, "triangle without corner 0", &TRIANGLE, 0, &mut [7; 4])?;
    report::removal(rt, "square, 5 places", &SQUARE, 1, &mut [7; 5])?;
    report::removal(rt, "square, 8 places", &SQUARE, 1, &mut [7; 8])?;
    report::removal(rt, "star without corner 0", &STAR, 0, &mut [7; 8])
}

// The most corners, one more, and one fewer by a removal.
fn most_corners(rt: &impl Print) -> io::Result<()> {
    let list = large::list();
    report::reading(rt, "256 corners", &list[0..512])?;
    report::reading(rt, "257 corners", &list)?;
    let mut rest = [0; 510];
    report::removal(
        rt,
        "256 corners without corner 255",
        &list[0..512],
        255,
        &mut rest,
    )?;
    report::reading(rt, "what it wrote", &rest)
}

fn main(rt: HostRuntime) -> io::Result<()> {
    coordinates(&rt)?;
    lengths(&rt)?;
    equal_corners(&rt)?;
    not_convex(&rt)?;
    removals(&rt)?;
    refused_removals(&rt)?;
    most_corners(&rt)
}
