// The functions of the crate `ravinebowl` as C functions, under the same names and with the same clauses.
// `embed/ravinebowl.h` declares them for C.
#![tactic(auto)]

ghost use Rattle.std.specs.Prelude.{◌≡◌};
ghost use Rattle.ravinebowl.specs.Calls.{compare_status, compare_list};
ghost use Rattle.ravinebowl.specs.Calls.{compare_records_status, compare_records_list};
ghost use Rattle.ravinebowl.specs.Calls.{nearest_status, nearest_list, mismatch_status, mismatch_list};
ghost use Rattle.ravinebowl.specs.Calls.{removal_status, insertion_status};
ghost use Rattle.ravinebowl.specs.Calls.{convex_hull_status, convex_hull_list, convex_hull_marks, convex_hull_result};
ghost use Rattle.edit.specs.code.Removal.{list_after};
ghost use Rattle.edit.specs.code.Insertion.{insertion_list};

use encoding::status::Status;

#[unsafe(no_mangle)]
pub extern "C" fn ravinebowl_compare(
    a: &[i32],
    b: &[i32],
    allowance: u32,
    res: &mut [i64],
) -> Status
    ensures status { result ≡ compare_status a.now b.now allowance res.old }
    ensures list { res.new ≡ compare_list a.now b.now allowance res.old }
{
    ravinebowl::ravinebowl_compare(a, b, allowance, res)
}

#[unsafe(no_mangle)]
pub extern "C" fn ravinebowl_compare_records(
    records: &[i32],
    a_start: i32,
    b_start: i32,
    allowance: u32,
    res: &mut [i64],
) -> Status
    ensures status { result ≡ compare_records_status records.now a_start b_start allowance res.old }
    ensures list { res.new ≡ compare_records_list records.now a_start b_start allowance res.old }
{
    ravinebowl::ravinebowl_compare_records(records, a_start, b_start, allowance, res)
}

#[unsafe(no_mangle)]
pub extern "C" fn ravinebowl_nearest_point(
    x: i32,
    y: i32,
    outline: &[i32],
    res: &mut [i64],
) -> Status
    ensures status { result ≡ nearest_status x y outline.now res.old }
    ensures list { res.new ≡ nearest_list x y outline.now res.old }
{
    ravinebowl::ravinebowl_nearest_point(x, y, outline, res)
}

#[unsafe(no_mangle)]
pub extern "C" fn ravinebowl_remove_corner(
    outline: &[i32],
    corner: usize,
    out: &mut [i32],
) -> Status
    ensures status { result ≡ removal_status outline.now corner out.old }
    ensures list { out.new ≡ list_after outline.now corner out.old }
{
    ravinebowl::ravinebowl_remove_corner(outline, corner, out)
}

#[unsafe(no_mangle)]
pub extern "C" fn ravinebowl_insert_corner(
    outline: &[i32],
    place: usize,
    x: i32,
    y: i32,
    out: &mut [i32],
) -> Status
    ensures status { result ≡ insertion_status outline.now place (record { x = x; y = y }) out.old }
    ensures list { out.new ≡ insertion_list outline.now place (record { x = x; y = y }) out.old }
{
    ravinebowl::ravinebowl_insert_corner(outline, place, x, y, out)
}

#[unsafe(no_mangle)]
pub extern "C" fn ravinebowl_convex_hull(
    points: &[i32],
    out: &mut [i32],
    marks: &mut [i32],
    res: &mut [i64],
) -> Status
    ensures status { result ≡ convex_hull_status points.now out.old marks.old res.old }
    ensures list { out.new ≡ convex_hull_list points.now out.old marks.old res.old }
    ensures marked { marks.new ≡ convex_hull_marks points.now out.old marks.old res.old }
    ensures counted { res.new ≡ convex_hull_result points.now out.old marks.old res.old }
{
    ravinebowl::ravinebowl_convex_hull(points, out, marks, res)
}

#[unsafe(no_mangle)]
pub extern "C" fn ravinebowl_mismatch(a: &[i32], b: &[i32], res: &mut [i64]) -> Status
    ensures status { result ≡ mismatch_status a.now b.now res.old }
    ensures list { res.new ≡ mismatch_list a.now b.now res.old }
{
    ravinebowl::ravinebowl_mismatch(a, b, res)
}
