// Comparing two outlines by a sweep of both: the values that hold them, its steps, and the comparison. `reporting` has
// what it reports.
#![tactic(auto)]

pub mod reporting;

ghost use Rattle.std.specs.Prelude.{◌≡◌, ◌<◌, ◌≤◌, length};
ghost use Rattle.outline.specs.Corners.{corners, held, most};
ghost use Rattle.outline.specs.code.Held.{corners_of};
ghost use Rattle.outline.specs.code.Unfilled.{unfilled};
ghost use Rattle.reading.specs.Accepted.{accepted_corners};
ghost use Rattle.hausdorff.specs.Pair.{step_count};
ghost use Rattle.hausdorff.specs.code.Call.{report_for};
ghost use Rattle.measuring.specs.Window.{window_at};
ghost use Rattle.sweep.specs.State.{IsAfter};
ghost use Rattle.comparing.specs.Outlines.{accepted_pair, accepted_orientations};
ghost use Rattle.comparing.specs.ReportOf.{listed_of};

use crate::reporting::Listed;
use hausdorff::{Report, Sides};
use measuring::Window;
use outline::Outline;
use reading::accepted::AcceptedOutline;
use reading::corners::{next, previous, unfilled};
use sweep::State;

// Puts the corners of an outline, as they are held, into a value that is made for them.
fn fill(value: &mut Outline, outline: &AcceptedOutline)
    requires { value.old ≡ unfilled (length (accepted_corners outline.now)) }
    ensures { value.new ≡ held (accepted_corners outline.now) }
{
    for i in 0..outline.count() {
        value.corners[i] = outline.corner(i);
    }
}

// What a step sees of an outline at a support corner.
#[tactic(auto, using(crate::proofs::CompareLaws::places))]
fn window(outline: &Outline, support: usize) -> Window
    requires fits { outline.now.count ≤ most }
    requires known { support < outline.now.count }
    ensures { result ≡ window_at (corners_of outline.now) support }
{
    let n = outline.count;
    let before = previous(n, support);
    let after = next(n, support);
    Window {
        count: n,
        number: support,
        earlier: outline.corners[previous(n, before)],
        before: outline.corners[before],
        corner: outline.corners[support],
        after: outline.corners[after],
        later: outline.corners[next(n, after)],
    }
}

// The sweep of two outlines, after `steps` steps. The values that hold them are filled in place: `held` would hand them
// over, and two copies of each would be left.
fn make_steps(outlines: &Sides<AcceptedOutline>, steps: u32) -> State
    requires { steps ≤ step_count (accepted_pair outlines.now) }
    ensures { IsAfter (accepted_pair outlines.now) (accepted_orientations outlines.now) steps result }
{
    let mut a = unfilled(outlines.a.count());
    fill(&mut a, &outlines.a);
    let mut b = unfilled(outlines.b.count());
    fill(&mut b, &outlines.b);
    let orientations = Sides {
        a: outlines.a.orientation,
        b: outlines.b.orientation,
    };
    let lowest_a = sweep::lowest(outlines.a.numbers, orientations.a);
    let lowest_b = sweep::lowest(outlines.b.numbers, orientations.b);
    let mut state = State {
        a: sweep::beginning(lowest_a, a.count),
        b: sweep::beginning(lowest_b, b.count),
    };
    for _ in 0..steps {
        let windows = Sides {
            a: window(&a, state.a.support),
            b: window(&b, state.b.support),
        };
        state = state.step(windows, orientations);
    }
    state
}

// What a report needs of an outline.
fn listed(outline: &AcceptedOutline) -> Listed
    ensures { result ≡ listed_of outline.now.orientation (corners outline.now.numbers.now) }
{
    Listed {
        orientation: outline.orientation,
        count: outline.count(),
        first: outline.corner(0),
    }
}

// Compares two outlines: as many steps as are allowed, at most one for each edge of both.
pub fn compare(outlines: &Sides<AcceptedOutline>, allowance: u32) -> Report
    ensures { let a = outlines.now.a in let b = outlines.now.b in
        result ≡ report_for a.orientation b.orientation a.numbers.now b.numbers.now allowance }
{
    let total = (outlines.a.count() + outlines.b.count()) as u32;
    let steps = allowance.min(total);
    let state = make_steps(outlines, steps);
    let is_spent = allowance < total;
    let (a, b) = (listed(&outlines.a), listed(&outlines.b));
    reporting::report_of(state, steps, is_spent, a, b)
}
