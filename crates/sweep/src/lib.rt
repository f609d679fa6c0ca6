// The sweep of two outlines: its state, a step, and where it begins. `hausdorff` defines what they are.
#![tactic(auto)]

ghost use Rattle.std.specs.Prelude.{◌≡◌, suc, ◌<◌};
ghost use Rattle.outline.specs.Convex.{Accepted};
ghost use Rattle.outline.specs.Corners.{corners};
ghost use Rattle.outline.specs.Orientation.{as_held};
ghost use Rattle.hausdorff.specs.Pair.{both_orientations};
ghost use Rattle.hausdorff.specs.code.Lowest.{LowestLeftmost};
ghost use Rattle.sweep.specs.State.{IsAfter, CanStep, beginning};
ghost use Rattle.sweep.specs.State.{Measurable, BoundedState, Passable, b_is_next, advanced, passed};
ghost use Rattle.sweep.specs.State.{changes_worst, with_worst};

use hausdorff::{CornerGap, Sides};
use measuring::{LocalFeature, Window};
use outline::{Orientation, Side};
use reading::corners::{count, held_corner, next};

// One outline's part of the sweep: its support corner, how many of its edges are still to be passed,
// and the worst so far of its corners, by the lists as given.
#[derive(Clone, Copy)]
pub struct SideState {
    pub support: usize,
    pub remaining: usize,
    pub worst: Option<CornerGap>,
}

// The sweep's state, one part for each side. It is no `Sides`, which is of another crate and so could not have the
// method `step`.
#[derive(Clone, Copy)]
pub struct State {
    pub a: SideState,
    pub b: SideState,
}

impl SideState {
    // The support corner moves to the end of the edge that starts there.
    fn advanced(self, count: usize) -> SideState
        requires support_lt_count { self.support < count }
        requires remaining_nonzero { 0 < self.remaining }
        ensures { result ≡ advanced count self }
    {
        SideState {
            support: next(count, self.support),
            remaining: self.remaining - 1,
            ..self
        }
    }
}

impl State {
    // `Measurable` stays a clause: it holds of two windows where each is one (`IsWindow`), which stays a clause too.
    // Whether the next edge is B's: if A has none left, or both have some and B's is strictly first. Directions that
    // are compared are less than half a turn apart (`proofs/NextEdge.antt`), so the sign of the side number decides.
    fn b_is_next(self, windows: Sides<Window>) -> bool
        requires { Measurable windows.a windows.b }
        ensures { result ≡ b_is_next windows.a windows.b self.a.remaining self.b.remaining }
    {
        if self.a.remaining == 0 {
            return true;
        }
        if self.b.remaining == 0 {
            return false;
        }
        plane::cross(
            plane::difference(windows.a.corner, windows.a.after),
            plane::difference(windows.b.corner, windows.b.after),
        ) < 0
    }

    // Passes the next edge.
    fn passed(self, windows: Sides<Window>) -> State
        requires { Passable self windows.a windows.b }
        ensures { result ≡ passed windows.a windows.b self }
    {
        if self.b_is_next(windows) {
            State {
                b: self.b.advanced(windows.b.count),
                ..self
            }
        } else {
            State {
                a: self.a.advanced(windows.a.count),
                ..self
            }
        }
    }

    // Whether measuring changes the worst so far of a side. Mostly it does not; then a step changes a support
    // corner and a count only, and builds no worst so far anew.
    fn changes_worst(
        self,
        orientations: Sides<Orientation>,
        windows: Sides<Window>,
        found: Sides<Option<LocalFeature>>,
    ) -> bool
        requires measurable { Measurable windows.a windows.b }
        requires bounded_state { BoundedState self }
        ensures { result ≡ changes_worst orientations.a orientations.b windows.a windows.b found.a found.b self }
    {
        measuring::changes(orientations.a, windows.a, windows.b, found.a, self.a.worst)
            || measuring::changes(orientations.b, windows.b, windows.a, found.b, self.b.worst)
    }

    // Measures both ways: the state with the worst so far of each side.
    fn with_worst(
        self,
        orientations: Sides<Orientation>,
        windows: Sides<Window>,
        found: Sides<Option<LocalFeature>>,
    ) -> State
        requires measurable { Measurable windows.a windows.b }
        requires bounded_state { BoundedState self }
        ensures { result ≡ with_worst orientations.a orientations.b windows.a windows.b found.a found.b self }
    {
        let Sides { a: of_a, b: of_b } = orientations;
        let Sides { a, b } = windows;
        State {
            a: SideState {
                worst: measuring::keep(Side::A, of_a, a, of_b, b, found.a, self.a.worst),
                ..self.a
            },
            b: SideState {
                worst: measuring::keep(Side::B, of_b, b, of_a, a, found.b, self.b.worst),
                ..self.b
            },
        }
    }

    // Rule 5.5: a step first measures and then passes the next edge. `windows` are those at the support corners; of
    // equal gaps the numbers as given decide, by the orientations of the lists. From the sweep after k steps it gives
    // that after k + 1, which is the definition's step (`step_after` in `proofs/StepLaws.antt`).
    pub fn step(self, windows: Sides<Window>, orientations: Sides<Orientation>) -> State
        requires { CanStep self windows.a windows.b orientations.a orientations.b }
        ensures { (can : CanStep self windows.a windows.b orientations.a orientations.b) → IsAfter can.pair (both_orientations orientations.a orientations.b) (suc can.steps) result }
    {
        let found = Sides {
            a: measuring::local_feature(windows.a.corner, windows.b),
            b: measuring::local_feature(windows.b.corner, windows.a),
        };
        if self.changes_worst(orientations, windows, found) {
            self.with_worst(orientations, windows, found)
                .passed(windows)
        } else {
            self.passed(windows)
        }
    }
}

// The number, as held, of the lowest corner of a list, of several the leftmost: there the outline's first edge in the
// angular order starts.
// Not by `wrapping::first_by`, which gives a point and not its number.
// It takes no `AcceptedOutline`: that has an even length, and what `lowest` requires asks for none.
pub fn lowest(s: &[i32], orientation: Orientation) -> usize
    requires { Accepted (as_held orientation (corners s.now)) }
    ensures { LowestLeftmost (as_held orientation (corners s.now)) result }
{
    let mut found = 0;
    for i in 1..count(s) {
        if plane::is_lower(
            held_corner(s, orientation, i),
            held_corner(s, orientation, found),
        ) {
            found = i;
        }
    }
    found
}

// One side's part before step 1, where `lowest` is its outline's lowest, leftmost corner.
pub fn beginning(lowest: usize, count: usize) -> SideState
    ensures { result ≡ beginning lowest count }
{
    SideState {
        support: lowest,
        remaining: count,
        worst: None,
    }
}
