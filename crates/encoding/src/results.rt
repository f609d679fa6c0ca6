// The numbers of each answer, as a result list holds them. `specs/Results.antt` sets them out, place by place.
ghost use Rattle.std.specs.Prelude.{◌≡◌, ◌^◌, ◌<◌, pos};
ghost use Rattle.encoding.specs.Results.{kind_of, number_of, of_nearest, side_code, of_corner, of_worst, row, of_done};
ghost use Rattle.encoding.specs.Results.{of_spent, of_overall, reported_of, of_side, of_number};
ghost use Rattle.hausdorff.specs.declared.Report.TheVariants as Report;
ghost use Rattle.hausdorff.specs.code.Sizes.{FitsI64, FeatureFits, NearestFits, CornerFits, WorstFits};
ghost use Rattle.hausdorff.specs.code.Sizes.{DoneFits, SpentFits, ReportFits};

use hausdorff::{CornerGap, Done, Report, Spent};
use nearest::{Feature, NearestPoint};
use outline::Side;

// How many numbers there are of a nearest point, of a corner with its gap, of both outlines of a comparison together,
// of a comparison, of a mismatch sum, and of a convex hull.
pub const NEAREST_LENGTH: usize = 7;

const CORNER_LENGTH: usize = 9;

const OVERALL_LENGTH: usize = 14;

pub const COMPARE_LENGTH: usize = 32;

pub const MISMATCH_LENGTH: usize = 1;

pub const CONVEX_HULL_LENGTH: usize = 1;

// Where the numbers of A's corner begin, and of B's.
pub const SIDE_A_PLACE: usize = 14;

pub const SIDE_B_PLACE: usize = 23;

// The kinds of a comparison: numbers, since C has them (`embed/ravinebowl.h`).
const DONE: i64 = 0;

const SPENT: i64 = 1;

// Stands where a place does not apply: 0 could be taken for a figure.
const ABSENT: i64 = -1;

// A number as an i64. (No `From`: it asks that the number fits, as those below do. `ReportFits` and its parts stay clauses:
// any numbers may stand in an answer.)
fn signed(n: u64) -> i64
    requires { n < 2 ^ 63 }
    ensures { result ≡ pos n }
{
    n as i64
}

// The kind of a feature. (No `From`: both types are of other crates.)
fn kind_of(feature: Feature) -> i64
    ensures { result ≡ kind_of feature }
{
    match feature {
        Feature::Within => 0,
        Feature::Corner(_) => 1,
        Feature::Edge(_) => 2,
    }
}

// The number of a feature that has one.
fn number_of(feature: Feature) -> i64
    requires { FeatureFits feature }
    ensures { result ≡ number_of feature }
{
    match feature {
        Feature::Within => ABSENT,
        Feature::Corner(i) => signed(i as u64),
        Feature::Edge(i) => signed(i as u64),
    }
}

// The numbers of a nearest point. It asks that they fit an `i64`, so it and those below are no `From`, which takes any
// value.
pub fn of_nearest(a: NearestPoint) -> [i64; NEAREST_LENGTH]
    requires { NearestFits a }
    ensures { result ≡ of_nearest a }
{
    [
        kind_of(a.feature),
        number_of(a.feature),
        signed(a.gap.upper),
        signed(a.gap.lower),
        a.point.x,
        a.point.y,
        signed(a.point.lower),
    ]
}

// The side of a corner. (No `From`: both types are of other crates.)
fn side_code(side: Side) -> i64
    ensures { result ≡ side_code side }
{
    match side {
        Side::A => 1,
        Side::B => 2,
    }
}

// The numbers of a corner with its gap.
fn of_corner(w: CornerGap) -> [i64; CORNER_LENGTH]
    requires { CornerFits w }
    ensures { result ≡ of_corner w }
{
    let mut numbers = [side_code(w.side); CORNER_LENGTH];
    numbers[1] = signed(w.corner as u64);
    numbers[2..].copy_from_slice(&of_nearest(NearestPoint {
        feature: w.feature,
        gap: w.gap,
        point: w.point,
    }));
    numbers
}

// The numbers of the worst so far. Where there is none yet its side is 0.
fn of_worst(worst: Option<CornerGap>) -> [i64; CORNER_LENGTH]
    requires { WorstFits worst }
    ensures { result ≡ of_worst worst }
{
    match worst {
        None => {
            let mut none = [ABSENT; CORNER_LENGTH];
            none[0] = 0;
            none
        }
        Some(w) => of_corner(w),
    }
}

// The numbers of both outlines together: those of the worst so far stand between the first four and the clearance.
fn row(
    kind: i64,
    steps: i64,
    support_a: i64,
    support_b: i64,
    worst: Option<CornerGap>,
    clearance: i64,
) -> [i64; OVERALL_LENGTH]
    requires { WorstFits worst }
    ensures { result ≡ row kind steps support_a support_b worst clearance }
{
    let mut numbers = [clearance; OVERALL_LENGTH];
    numbers[..4].copy_from_slice(&[kind, steps, support_a, support_b]);
    numbers[4..13].copy_from_slice(&of_worst(worst));
    numbers
}

// The numbers of a comparison that is done.
fn of_done(d: Done) -> [i64; OVERALL_LENGTH]
    requires { DoneFits d }
    ensures { result ≡ of_done d }
{
    row(
        DONE,
        signed(d.steps as u64),
        ABSENT,
        ABSENT,
        Some(d.answer),
        signed(d.clearance),
    )
}

// The numbers of a comparison that is spent.
fn of_spent(p: Spent) -> [i64; OVERALL_LENGTH]
    requires { SpentFits p }
    ensures { result ≡ of_spent p }
{
    row(
        SPENT,
        signed(p.steps as u64),
        signed(p.support.a as u64),
        signed(p.support.b as u64),
        p.worst,
        ABSENT,
    )
}

// The numbers of both outlines of a comparison together.
pub fn of_overall(report: Report) -> [i64; OVERALL_LENGTH]
    requires { ReportFits report }
    ensures { result ≡ of_overall report }
{
    match report {
        Report::Spent(spent) => of_spent(spent),
        Report::Done(done) => of_done(done),
    }
}

// What a report has of a side.
fn reported_of(side: Side, report: Report) -> Option<CornerGap>
    ensures { result ≡ reported_of side report }
{
    match report {
        Report::Spent(spent) => spent.sides.at_side(side),
        Report::Done(done) => Some(done.sides.at_side(side)),
    }
}

// The numbers of what a report has of a side.
pub fn of_side(side: Side, report: Report) -> [i64; CORNER_LENGTH]
    requires { ReportFits report }
    ensures { result ≡ of_side side report }
{
    of_worst(reported_of(side, report))
}

// The one number of a mismatch sum, or of a corner count.
pub fn of_number(n: u64) -> [i64; MISMATCH_LENGTH]
    requires { FitsI64 n }
    ensures { result ≡ of_number n }
{
    [signed(n)]
}
