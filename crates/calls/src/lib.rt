// The public calls. Each may be handed any list of any numbers: it does its own checking and has no `requires`.
// What a call promises it says twice: as an equation with a definition that computes, and in the words of the rules of
// docs/SPECIFICATION.md (`rules`), from which a caller reads off what holds. Each of the two determines the result.
#![tactic(auto)]

ghost use Rattle.std.specs.Prelude.{◌≡◌, None, Ok, Err, MatchResult};
ghost use Rattle.outline.specs.EitherReading.{IsEitherReading};
ghost use Rattle.outline.specs.Reading.{IsReading};
ghost use Rattle.outline.specs.code.Either.{either_reading};
ghost use Rattle.outline.specs.code.Reading.{reading};
ghost use Rattle.edit.specs.Removal.{IsRemoval};
ghost use Rattle.edit.specs.code.Removal.{removal_verdict, list_after};
ghost use Rattle.edit.specs.Insertion.{IsInsertion};
ghost use Rattle.edit.specs.code.Insertion.{insertion_verdict, insertion_list};
ghost use Rattle.hull.specs.Call.{IsHullAnswer};
ghost use Rattle.hull.specs.code.Call.{hull_answer, hull_list, hull_marks};
ghost use Rattle.nearest.specs.Call.{IsNearestAnswer};
ghost use Rattle.nearest.specs.code.Call.{nearest_answer};
ghost use Rattle.hausdorff.specs.code.Call.{check_pair, comparison};
ghost use Rattle.hausdorff.specs.Call.{IsComparison};
ghost use Rattle.records.specs.Call.{IsRecordsComparison};
ghost use Rattle.records.specs.code.Call.{records_comparison};
ghost use Rattle.mismatch.specs.Call.{IsMismatchAnswer};
ghost use Rattle.mismatch.specs.code.Call.{mismatch_answer};

use editing::{insertion, removal};
use hausdorff::{Report, Sides};
use nearest::NearestPoint;
use outline::{EitherReading, FEWEST, Fault, Outline, Place, Refusal, Side};
use plane::Corner;
use projection::answers;
use reading::accepted::AcceptedOutline;
use reading::corners::no_numbers;
use reading::refusals::refuse;
use wrapping::marks::write_marks;
use wrapping::points::fill;

// Reads the outline that the list `s` gives: x and y of corner 0, then of corner 1, and so on, in either orientation.
// The outline is read as it is held, with the orientation of the list beside it: of a clockwise list corner 0, and then
// the others in the opposite order. Refusals 1 to 6, where 6 is for a list that fits neither orientation.
pub fn read_outline(s: &[i32]) -> Result<EitherReading, Refusal>
    ensures answer { result ≡ either_reading None s.now }
    ensures rules { IsEitherReading None s.now result }
{
    reading::read_either(s, None)
}

// Reads the outline that the list `s` gives: x and y of corner 0, then of corner 1, and so on, counterclockwise.
// Refusals 1 to 6.
pub fn read_outline_strict(s: &[i32]) -> Result<Outline, Refusal>
    ensures answer { result ≡ reading None s.now }
    ensures rules { IsReading None s.now result }
{
    reading::read(s, None)
}

// Removes corner k from the outline that the counterclockwise list `s` gives, and writes the other corners to `out`, in
// their order.
// Refusals 1 to 6, 8, 2 and 9, in this order; `out` is then as it was.
pub fn remove_corner(s: &[i32], k: usize, out: &mut [i32]) -> Result<(), Refusal>
    ensures answer { result ≡ removal_verdict s.now k out.old }
    ensures list { out.new ≡ list_after s.now k out.old }
    ensures rules { IsRemoval s.now k out.old result out.new }
{
    removal::check_removal(s, k, out.len())?;
    removal::write_without(s, k, out);
    Ok(())
}

// Inserts the point v as corner k into the outline that the counterclockwise list `s` gives: before what was corner k, or
// after the last if k is the corner count. Writes the corners of the result to `out`, in their order.
// Refusals, in this order: 1 to 6 for the outline, 8, 7, 3, 9, and 5 and 6 for the result, with places in the result. A
// refused call leaves `out` as it was.
pub fn insert_corner(s: &[i32], k: usize, v: Corner, out: &mut [i32]) -> Result<(), Refusal>
    ensures answer { result ≡ insertion_verdict s.now k v out.old }
    ensures list { out.new ≡ insertion_list s.now k v out.old }
    ensures rules { IsInsertion s.now k v out.old result out.new }
{
    insertion::check_insertion(s, k, v, out.len())?;
    insertion::write_with(s, k, v, out);
    Ok(())
}

// The convex hull of the points that the list `s` gives: x and y of point 0, then of point 1, and so on, in any order, with
// repeats, and points along straight edges. Writes the corners of the outline of the smallest convex piece that holds them
// all to `out`, which is as long as `s`, from the lowest corner, of several the leftmost, counterclockwise, and zeros after
// the last. Writes a mark for every point to `marks`: -1 if it repeats an earlier point, else its corner number, else -2.
// Gives the corner count.
// Refusals, in this order: 1, 3, 4, whose place is the number of the first such point, 9 if either list has another length,
// and 2 if there are no points or all lie in one line. A refused call leaves both lists as they were.
pub fn convex_hull(s: &[i32], out: &mut [i32], marks: &mut [i32]) -> Result<usize, Refusal>
    ensures answer { result ≡ hull_answer s.now out.old marks.old }
    ensures list { out.new ≡ hull_list s.now out.old marks.old }
    ensures marked { marks.new ≡ hull_marks s.now out.old marks.old }
    ensures rules { IsHullAnswer s.now out.old marks.old result out.new marks.new }
{
    wrapping::checks::check_points(s, out.len(), marks.len())?;
    // A list and a count, since there is no heap.
    let mut hull = no_numbers();
    let count = wrapping::convex_hull(s, &mut hull);
    if count < FEWEST {
        return refuse(Fault::TooFew, None, Place::Nowhere);
    }
    fill(&hull[..2 * count], out);
    write_marks(s, &hull[..2 * count], marks);
    Ok(count)
}

// Finds the nearest point, to the point v, of the outline that the list `s` gives, in either orientation. The feature is
// named by the list as given. Refusals 1 to 6 for the outline, then 7.
pub fn nearest_point(v: Corner, s: &[i32]) -> Result<NearestPoint, Refusal>
    ensures answer { result ≡ nearest_answer v s.now }
    ensures rules { IsNearestAnswer v s.now result }
{
    let outline = AcceptedOutline::accept(s, None)?;
    if !plane::in_range(v) {
        return refuse(Fault::PointOutOfRange, None, Place::Nowhere);
    }
    let nearest = projection::nearest(&outline, v);
    Ok(answers::given_nearest(outline.orientation, outline.count(), nearest))
}

// Checks two lists: refusals 1 to 6 for A, then 1 to 6 for B. Gives the outlines of lists that are taken.
fn accept_pair<'a>(a: &'a [i32], b: &'a [i32]) -> Result<Sides<AcceptedOutline<'a>>, Refusal>
    ensures { MatchResult result
        (λ outlines.
        (outlines.a.numbers.now ≡ a.now)
        × (outlines.b.numbers.now ≡ b.now)
        × (check_pair a.now b.now ≡ Ok (outlines.a.orientation, outlines.b.orientation)))
        (λ refusal. check_pair a.now b.now ≡ Err refusal) }
{
    Ok(Sides {
        a: AcceptedOutline::accept(a, Some(Side::A))?,
        b: AcceptedOutline::accept(b, Some(Side::B))?,
    })
}

// Compares the outlines that the lists `a` and `b` give, each in either orientation, in at most `allowance` steps.
// Corners and edges are named by the lists as given.
// Refusals 1 to 6 for A, then 1 to 6 for B. Being spent is no refusal.
pub fn compare(a: &[i32], b: &[i32], allowance: u32) -> Result<Report, Refusal>
    ensures answer { result ≡ comparison a.now b.now allowance }
    ensures rules { IsComparison a.now b.now allowance result }
{
    let outlines = accept_pair(a, b)?;
    Ok(comparing::compare(&outlines, allowance))
}

// Compares the outlines of two chains of linked records, which start at the indexes `a_start` and `b_start`, each in
// either orientation, in at most `allowance` steps. The store has three numbers for each record: x, y and the index of
// the next record. Record 0 is never a corner, and index 0 ends a chain. Corners, edges and places are numbered along the
// chains.
// Refusal 10, of A, for a store whose length is no multiple of three; then 11, 12 and 2 to 6 for A, then the same for B.
pub fn compare_records(
    store: &[i32],
    a_start: i32,
    b_start: i32,
    allowance: u32,
) -> Result<Report, Refusal>
    ensures answer { result ≡ records_comparison store.now a_start b_start allowance }
    ensures rules { IsRecordsComparison store.now a_start b_start allowance result }
{
    let mut a = no_numbers();
    let mut b = no_numbers();
    let (n, m) = traversal::read_chains(store, a_start, b_start, &mut a, &mut b)?;
    compare(&a[..n], &b[..m], allowance)
}

// The mismatch sum of the outlines that the lists `a` and `b` give, each in either orientation. The squared distance of
// every corner of each to the other piece, 0 in it, is brought down to a whole number of 1/1024 square millimetres, and
// these are added.
// Refusals as in `compare`.
pub fn mismatch(a: &[i32], b: &[i32]) -> Result<u64, Refusal>
    ensures answer { result ≡ mismatch_answer a.now b.now }
    ensures rules { IsMismatchAnswer a.now b.now result }
{
    let outlines = accept_pair(a, b)?;
    Ok(summing::mismatch_sum(&outlines.a, &outlines.b))
}
