// The calls as C functions have them, over lists that the caller lends. None has a `requires`: each takes any lists. A
// refusal is a status, and a refused call writes to no list. The crate `ravinebowl_c` hands them to C under the same
// names.
#![tactic(auto)]

ghost use Rattle.std.specs.Prelude.{◌≡◌, length};
ghost use Rattle.hausdorff.specs.code.Sizes.{ReportFits};
ghost use Rattle.encoding.specs.Results.{of_report};
ghost use Rattle.ravinebowl.specs.Calls.{compare_length, compare_status, compare_list};
ghost use Rattle.ravinebowl.specs.Calls.{compare_records_status, compare_records_list};
ghost use Rattle.ravinebowl.specs.Calls.{nearest_status, nearest_list, mismatch_status, mismatch_list};
ghost use Rattle.ravinebowl.specs.Calls.{removal_status, insertion_status};
ghost use Rattle.ravinebowl.specs.Calls.{convex_hull_status, convex_hull_list, convex_hull_marks, convex_hull_result};
ghost use Rattle.edit.specs.code.Removal.{list_after};
ghost use Rattle.edit.specs.code.Insertion.{insertion_list};

use encoding::results;
use encoding::results::{
    COMPARE_LENGTH, CONVEX_HULL_LENGTH, MISMATCH_LENGTH, NEAREST_LENGTH, SIDE_A_PLACE, SIDE_B_PLACE,
};
use encoding::status::Status;
use hausdorff::Report;
use outline::Side;
use plane::Corner;
use reading::corners::no_numbers;

// Writes the numbers of a comparison: first those of both outlines together, then A's and B's.
fn write_report(report: Report, res: &mut [i64])
    requires report_fits { ReportFits report }
    requires res_len { length res.old ≡ compare_length }
    ensures { res.new ≡ of_report report }
{
    res[..SIDE_A_PLACE].copy_from_slice(&results::of_overall(report));
    res[SIDE_A_PLACE..SIDE_B_PLACE].copy_from_slice(&results::of_side(Side::A, report));
    res[SIDE_B_PLACE..].copy_from_slice(&results::of_side(Side::B, report));
}

// Compares the outlines that the lists `a` and `b` give, in at most `allowance` steps, and writes 32 numbers to
// `res`. A `res` of another length is judged first; then refusals 1 to 6 for A, then for B. Being spent is no
// refusal.
pub fn ravinebowl_compare(a: &[i32], b: &[i32], allowance: u32, res: &mut [i64]) -> Status
    ensures status { result ≡ compare_status a.now b.now allowance res.old }
    ensures list { res.new ≡ compare_list a.now b.now allowance res.old }
{
    if res.len() != COMPARE_LENGTH {
        return Status::wrong_result_length();
    }
    match calls::compare(a, b, allowance) {
        Err(refusal) => Status::from(refusal),
        Ok(report) => {
            write_report(report, res);
            Status::answered()
        }
    }
}

// Compares the outlines of two chains of linked records, which start at the indexes `a_start` and `b_start` of the store
// `records`, in at most `allowance` steps, and writes 32 numbers to `res`, as `ravinebowl_compare` does. A `res` of
// another length is judged first; then 10, of A; then 11, 12 and 2 to 6 for A, then for B. The lists of the chains go to
// `ravinebowl_compare`, so that `comparing::compare` has one caller and is compiled into it (docs/DECISIONS.md).
pub fn ravinebowl_compare_records(
    records: &[i32],
    a_start: i32,
    b_start: i32,
    allowance: u32,
    res: &mut [i64],
) -> Status
    ensures status { result ≡ compare_records_status records.now a_start b_start allowance res.old }
    ensures list { res.new ≡ compare_records_list records.now a_start b_start allowance res.old }
{
    if res.len() != COMPARE_LENGTH {
        return Status::wrong_result_length();
    }
    let mut a = no_numbers();
    let mut b = no_numbers();
    match traversal::read_chains(records, a_start, b_start, &mut a, &mut b) {
        Err(refusal) => Status::from(refusal),
        Ok((n, m)) => ravinebowl_compare(&a[..n], &b[..m], allowance, res),
    }
}

// Finds the nearest point, to the point (x, y), of the outline that the list `outline` gives, and writes 7 numbers
// to `res`. A `res` of another length is judged first; then refusals 1 to 6 for the outline, then 7.
pub fn ravinebowl_nearest_point(x: i32, y: i32, outline: &[i32], res: &mut [i64]) -> Status
    ensures status { result ≡ nearest_status x y outline.now res.old }
    ensures list { res.new ≡ nearest_list x y outline.now res.old }
{
    if res.len() != NEAREST_LENGTH {
        return Status::wrong_result_length();
    }
    match calls::nearest_point(Corner { x, y }, outline) {
        Err(refusal) => Status::from(refusal),
        Ok(found) => {
            res.copy_from_slice(&results::of_nearest(found));
            Status::answered()
        }
    }
}

// (Each function is C's, so what two of them do alike stands in both.)
// Removes a corner from the outline that the list `outline` gives, and writes the other corners to `out`, in their
// order. Refusals 1 to 6, 8, 2 and 9, in this order; 9 is for an `out` of the wrong length.
pub fn ravinebowl_remove_corner(outline: &[i32], corner: usize, out: &mut [i32]) -> Status
    ensures status { result ≡ removal_status outline.now corner out.old }
    ensures list { out.new ≡ list_after outline.now corner out.old }
{
    match calls::remove_corner(outline, corner, out) {
        Ok(()) => Status::answered(),
        Err(refusal) => Status::from(refusal),
    }
}

// Inserts the point (x, y) as corner `place` into the outline that the counterclockwise list `outline` gives, and writes
// the corners of the result to `out`, in their order. Refusals, in this order: 1 to 6 for the outline, 8, 7, 3, 9, and 5
// and 6 for the result, with places in the result; 9 is for an `out` of the wrong length.
pub fn ravinebowl_insert_corner(
    outline: &[i32],
    place: usize,
    x: i32,
    y: i32,
    out: &mut [i32],
) -> Status
    ensures status { result ≡ insertion_status outline.now place (record { x = x; y = y }) out.old }
    ensures list { out.new ≡ insertion_list outline.now place (record { x = x; y = y }) out.old }
{
    match calls::insert_corner(outline, place, Corner { x, y }, out) {
        Ok(()) => Status::answered(),
        Err(refusal) => Status::from(refusal),
    }
}

// The convex hull of the points that the list `points` gives: writes its corners to `out`, from the lowest, of several the
// leftmost, counterclockwise, with zeros after them; a mark for every point to `marks`, -1 if it repeats an earlier point,
// else its corner number, else -2; and the corner count, one number, to `res`.
// A `res` of another length is judged first; then refusals 1, 3, 4, 9 and 2; 9 is for an `out` or a `marks` of the wrong
// length.
pub fn ravinebowl_convex_hull(
    points: &[i32],
    out: &mut [i32],
    marks: &mut [i32],
    res: &mut [i64],
) -> Status
    ensures status { result ≡ convex_hull_status points.now out.old marks.old res.old }
    ensures list { out.new ≡ convex_hull_list points.now out.old marks.old res.old }
    ensures marked { marks.new ≡ convex_hull_marks points.now out.old marks.old res.old }
    ensures counted { res.new ≡ convex_hull_result points.now out.old marks.old res.old }
{
    if res.len() != CONVEX_HULL_LENGTH {
        return Status::wrong_result_length();
    }
    match calls::convex_hull(points, out, marks) {
        Err(refusal) => Status::from(refusal),
        Ok(count) => {
            res.copy_from_slice(&results::of_number(count as u64));
            Status::answered()
        }
    }
}

// The mismatch sum of the outlines that the lists `a` and `b` give: the squared distance of every corner of each to the
// other piece, 0 in it, is brought down to a whole number of 1/1024 square millimetres, and these are added. Writes this
// one number to `res`. A `res` of another length is judged first; then refusals 1 to 6 for A, then for B.
pub fn ravinebowl_mismatch(a: &[i32], b: &[i32], res: &mut [i64]) -> Status
    ensures status { result ≡ mismatch_status a.now b.now res.old }
    ensures list { res.new ≡ mismatch_list a.now b.now res.old }
{
    if res.len() != MISMATCH_LENGTH {
        return Status::wrong_result_length();
    }
    match calls::mismatch(a, b) {
        Err(refusal) => Status::from(refusal),
        Ok(sum) => {
            res.copy_from_slice(&results::of_number(sum));
            Status::answered()
        }
    }
}
