// The C functions over lists but the one that inserts a corner, a line each, as `case_lines::status` lays it out. The list
// to write has the given length, as far as there is room.
use case_input::LONGEST;
use case_lines::FILL;
use case_lines::status::{LONGEST_RESULT, RESULT_FILL, print_call};
use plane::Corner;
use std::io;

pub fn nearest(rt: &impl Print, v: Corner, a: &[i32], length: usize) -> io::Result<()> {
    print_call(
        rt,
        b"c_nearest",
        &mut [RESULT_FILL; LONGEST_RESULT],
        length,
        |res| { ravinebowl::ravinebowl_nearest_point(v.x, v.y, a, res) },
    )
}

pub fn remove(rt: &impl Print, a: &[i32], corner: usize, length: usize) -> io::Result<()> {
    print_call(rt, b"c_remove", &mut [FILL; LONGEST], length, |out| {
        ravinebowl::ravinebowl_remove_corner(a, corner, out)
    })
}

pub fn compare(
    rt: &impl Print,
    a: &[i32],
    b: &[i32],
    allowance: u32,
    length: usize,
) -> io::Result<()> {
    print_call(
        rt,
        b"c_compare",
        &mut [RESULT_FILL; LONGEST_RESULT],
        length,
        |res| { ravinebowl::ravinebowl_compare(a, b, allowance, res) },
    )
}

pub fn mismatch(rt: &impl Print, a: &[i32], b: &[i32], length: usize) -> io::Result<()> {
    print_call(
        rt,
        b"c_mismatch",
        &mut [RESULT_FILL; LONGEST_RESULT],
        length,
        |res| { ravinebowl::ravinebowl_mismatch(a, b, res) },
    )
}
