// What a sweep reports.
ghost use Rattle.std.specs.Prelude.{◌≡◌};
ghost use Rattle.integers.specs.code.Fraction.{Bounded};
ghost use Rattle.hausdorff.specs.CornerGap.{worse, overall};
ghost use Rattle.hausdorff.specs.Law.{or_within};
ghost use Rattle.measuring.specs.Changes.{BoundedWorst};
ghost use Rattle.comparing.specs.ReportOf.{Reportable, spent_of, done_of, report_of};

use hausdorff::{CornerGap, Done, Report, Sides, Spent};
use outline::{Orientation, Side};
use plane::Corner;
use projection::answers;
use reading::corners::given_corner;
use sweep::State;

// What a report needs of a list: its orientation, how many corners it gives, and where corner 0 is.
// It stands in for an `AcceptedOutline`, which is more than what `report_of` requires.
#[derive(Clone, Copy)]
pub struct Listed {
    pub orientation: Orientation,
    pub count: usize,
    pub first: Corner,
}

// The one with the greater gap; the first of equals.
fn worse(w: CornerGap, z: CornerGap) -> CornerGap
    requires bounded { Bounded w.gap }
    requires bounded_2 { Bounded z.gap }
    ensures { result ≡ worse w z }
{
    if w.gap.compare(z.gap).is_lt() { z } else { w }
}

// The worse of A's and B's, A's where the gaps are equal; none if both are none.
fn overall(a: Option<CornerGap>, b: Option<CornerGap>) -> Option<CornerGap>
    requires bounded_worst { BoundedWorst a }
    requires bounded_worst_2 { BoundedWorst b }
    ensures { result ≡ overall a b }
{
    match (a, b) {
        (Some(w), Some(z)) => Some(worse(w, z)),
        _ => a.or(b),
    }
}

// The answer of a side: its worst so far after all steps or, if that is none, its corner 0, at `first`, within.
fn or_within(side: Side, first: Corner, worst: Option<CornerGap>) -> CornerGap
    ensures { result ≡ or_within side first worst }
{
    worst.unwrap_or_else(|| measuring::with_corner(side, 0, answers::within(first)))
}

// What is reported after fewer steps than there are. `Reportable` stays a clause: the state is one of `sweep`, whose
// definitions make states of which it does not hold.
fn spent_of(state: State, steps: u32, listed_a: Listed, listed_b: Listed) -> Spent
    requires { Reportable state listed_a listed_b }
    ensures { result ≡ spent_of state steps listed_a listed_b }
{
    Spent {
        steps,
        support: Sides {
            a: given_corner(listed_a.orientation, listed_a.count, state.a.support),
            b: given_corner(listed_b.orientation, listed_b.count, state.b.support),
        },
        worst: overall(state.a.worst, state.b.worst),
        sides: Sides {
            a: state.a.worst,
            b: state.b.worst,
        },
    }
}

// What is reported after all steps.
fn done_of(state: State, steps: u32, listed_a: Listed, listed_b: Listed) -> Done
    requires { Reportable state listed_a listed_b }
    ensures { result ≡ done_of state steps listed_a listed_b }
{
    let a = or_within(Side::A, listed_a.first, state.a.worst);
    let b = or_within(Side::B, listed_b.first, state.b.worst);
    let answer = worse(a, b);
    Done {
        steps,
        answer,
        clearance: answer.gap.ceiling_root(),
        sides: Sides { a, b },
    }
}

// (The flag, and two `Listed` and no `Sides`: the definition takes them so.)
// What there is to report after the steps made. The support corners are named by the lists as given, as the worst so far
// of each side is in the state.
pub fn report_of(state: State, steps: u32, is_spent: bool, a: Listed, b: Listed) -> Report
    requires { Reportable state a b }
    ensures { result ≡ report_of state steps is_spent a b }
{
    if is_spent {
        return Report::Spent(spent_of(state, steps, a, b));
    }
    Report::Done(done_of(state, steps, a, b))
}
