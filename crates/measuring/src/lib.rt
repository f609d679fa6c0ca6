// Measuring a corner of one outline against the support corner of the other.
#![tactic(auto)]

ghost use Rattle.std.specs.Prelude.{◌≡◌, ℕ};
ghost use Rattle.integers.specs.code.Fraction.{Bounded};
ghost use Rattle.plane.specs.Range.{InRange};
ghost use Rattle.plane.specs.code.Range.{Span, reach};
ghost use Rattle.hausdorff.specs.CornerGap.{with_corner};
ghost use Rattle.hausdorff.specs.code.Worst.{keep};
ghost use Rattle.measuring.specs.Window.{given_number, IsWindow};
ghost use Rattle.measuring.specs.LocalFeature.{feature_of, counted_feature, local_values, local_given};
ghost use Rattle.measuring.specs.EdgePart.{end_is_nearest, edge_part, corner_if, by_parts};
ghost use Rattle.measuring.specs.Changes.{BoundedWorst, is_worse, changes};

use hausdorff::CornerGap;
use integers::fraction::Fraction;
use nearest::NearestPoint;
use outline::{Orientation, Side};
use plane::{Corner, Vector};
use projection::answers;
use projection::local::Part;
use reading::corners;

// What a step sees of an outline: how many corners it has, its support corner with its number, and the two corners on
// either side, counted round the outline: `earlier` is the corner before `before`, `later` the corner after `after`.
// `IsWindow` stays a clause: a ghost field would have to hold of what `window_at` gives, by which `CanStep` and the laws
// say what a step sees, and that gives a window of any list at any number.
#[derive(Clone, Copy)]
pub struct Window {
    pub count: usize,
    pub number: usize,
    pub earlier: Corner,
    pub before: Corner,
    pub corner: Corner,
    pub after: Corner,
    pub later: Corner,
}

// The nearest feature to a point, where it is at the support corner: this corner, an edge that meets there, or that
// edge's other end. A point whose nearest feature is another, or that is within, does not count and has none.
#[derive(Clone, Copy)]
pub enum LocalFeature {
    Corner,
    EdgeAfter,
    EdgeBefore,
    CornerAfter,
    CornerBefore,
}

// Whether v, whose foot is not before the end of an edge, is nearest to this end: on the edge from there to
// `beyond` its foot is not past `end` either, and v is not `end` itself, which alone of such points is strictly
// right of neither edge. is_right: v is strictly right of the first edge; is_after: the other is the edge after
// `end`. The edge before `end` runs from `beyond` to it, and so its right is the left of the line from `end` to
// `beyond`.
fn end_is_nearest(v: Corner, is_right: bool, is_after: bool, end: Corner, beyond: Corner) -> bool
    requires in_range { InRange v }
    requires in_range_2 { InRange end }
    requires in_range_3 { InRange beyond }
    ensures { result ≡ end_is_nearest v is_right is_after end beyond }
{
    let to = plane::difference(end, v);
    let run = plane::difference(end, beyond);
    if 0 < plane::dot(to, run) {
        return false;
    }
    if is_right {
        return true;
    }
    if is_after {
        return plane::is_right(end, run, v);
    }
    plane::is_left(end, run, v)
}

// The part of an edge at the support corner that v is nearest to: `to` and `run` lead from this corner to v and to
// the edge's other end, which is `end`; `beyond` is the next corner the same way round. is_right: v is strictly
// right of the edge; is_after: it is the edge after the support corner. Start: v's foot is at the support corner,
// or off the edge on that side; None: v is nearest to none of the edge's parts.
// The flag is_after stays: of a closure that tests a side, each clause would have to say what it answers.
fn edge_part(
    v: Corner,
    to: Vector,
    run: Vector,
    is_right: bool,
    is_after: bool,
    end: Corner,
    beyond: Corner,
) -> Option<Part>
    requires in_range { InRange v }
    requires span { Span reach to }
    requires span_2 { Span reach run }
    requires in_range_2 { InRange end }
    requires in_range_3 { InRange beyond }
    ensures { result ≡ edge_part v to run is_right is_after end beyond }
{
    let along = plane::dot(to, run);
    if along <= 0 {
        return Some(Part::Start);
    }
    if along < plane::squared_length(run) {
        if is_right {
            return Some(Part::Between);
        }
        return None;
    }
    if end_is_nearest(v, is_right, is_after, end, beyond) {
        return Some(Part::End);
    }
    None
}

// What is found for v whose feet are at the support corner, or off both edges on that side: this corner, if v is
// strictly right of one of them. Of such points the corner itself alone is not.
fn corner_if(right_after: bool, right_before: bool) -> Option<LocalFeature>
    ensures { result ≡ corner_if right_after right_before }
{
    (right_after || right_before).then_some(LocalFeature::Corner)
}

// What the parts of the edge after the support corner and of the edge before it tell; `corner` is what is found if
// both are Start.
fn by_parts(
    after: Option<Part>,
    before: Option<Part>,
    corner: Option<LocalFeature>,
) -> Option<LocalFeature>
    ensures { result ≡ by_parts after before corner }
{
    match (after, before) {
        (Some(Part::Between), _) => Some(LocalFeature::EdgeAfter),
        (Some(Part::End), _) => Some(LocalFeature::CornerAfter),
        (_, Some(Part::Between)) => Some(LocalFeature::EdgeBefore),
        (_, Some(Part::End)) => Some(LocalFeature::CornerBefore),
        (Some(Part::Start), Some(Part::Start)) => corner,
        _ => None,
    }
}

// The nearest feature to v, if v counts.
pub fn local_feature(v: Corner, w: Window) -> Option<LocalFeature>
    requires in_range { InRange v }
    requires window { IsWindow w }
    ensures { (window : IsWindow w) → feature_of w result ≡ counted_feature window.outline w.number v }
{
    let to = plane::difference(w.corner, v);
    let run_before = plane::difference(w.corner, w.before);
    let run_after = plane::difference(w.corner, w.after);
    let right_before = plane::is_left(w.corner, run_before, v);
    let right_after = plane::is_right(w.corner, run_after, v);
    let part_before = edge_part(v, to, run_before, right_before, false, w.before, w.earlier);
    let part_after = edge_part(v, to, run_after, right_after, true, w.after, w.later);
    by_parts(
        part_after,
        part_before,
        corner_if(right_after, right_before),
    )
}

// The gap and the nearest point of a local feature.
#[tactic(auto, using(crate::proofs::WindowLaws::ranges))]
fn local_values(v: Corner, w: Window, f: LocalFeature) -> NearestPoint
    requires in_range { InRange v }
    requires window { IsWindow w }
    ensures { result ≡ local_values v w f }
{
    let n = w.count;
    let b = w.number;
    match f {
        LocalFeature::Corner => answers::at_corner(v, b, w.corner),
        LocalFeature::EdgeAfter => answers::on_edge(v, b, w.corner, w.after),
        LocalFeature::EdgeBefore => answers::on_edge(
            v,
            corners::previous(n, b),
            w.before,
            w.corner,
        ),
        LocalFeature::CornerAfter => answers::at_corner(v, corners::next(n, b), w.after),
        LocalFeature::CornerBefore => answers::at_corner(v, corners::previous(n, b), w.before),
    }
}

// Whether a corner with this gap takes the place of another of its side: its gap is greater, or equal and its
// number lower.
fn is_worse(gap: Fraction, number: usize, old: CornerGap) -> bool
    requires bounded { Bounded gap }
    requires bounded_2 { Bounded old.gap }
    ensures { result ≡ is_worse gap number old }
{
    old.gap.compare(gap).then(number.cmp(&old.corner)).is_lt()
}

// The number of the support corner in the list as given.
fn given_number(orientation: Orientation, w: Window) -> usize
    requires { IsWindow w }
    ensures { result ≡ given_number orientation w }
{
    corners::given_corner(orientation, w.count, w.number)
}

// (`BoundedWorst` stays a clause, as `Bounded` does: `integers::fraction`.)
// Whether the worst so far of a side changes when its support corner, that of `own`, is measured against the one of `w`;
// f is what `local_feature` found. Of equal gaps the numbers as given decide, by the orientation of the side's list.
pub fn changes(
    of_own: Orientation,
    own: Window,
    w: Window,
    f: Option<LocalFeature>,
    old: Option<CornerGap>,
) -> bool
    requires window { IsWindow own }
    requires window_2 { IsWindow w }
    requires bounded_worst { BoundedWorst old }
    ensures { result ≡ changes (given_number of_own own) own.corner w f old }
{
    let Some(f) = f else {
        return false;
    };
    old.is_none_or(|o| {
        is_worse(
            local_values(own.corner, w, f).gap,
            given_number(of_own, own),
            o,
        )
    })
}

// A nearest point with the side and the number of the corner that it is for.
pub fn with_corner(side: Side, number: usize, a: NearestPoint) -> CornerGap
    ensures { result ≡ with_corner side number a }
{
    CornerGap {
        side,
        corner: number,
        feature: a.feature,
        gap: a.gap,
        point: a.point,
    }
}

// The worst so far of a side, by the lists as given, once its support corner, that of `own`, is measured against the one
// of `w`; f is what `local_feature` found.
pub fn keep(
    side: Side,
    of_own: Orientation,
    own: Window,
    of_w: Orientation,
    w: Window,
    f: Option<LocalFeature>,
    old: Option<CornerGap>,
) -> Option<CornerGap>
    requires window { IsWindow own }
    requires window_2 { IsWindow w }
    requires bounded_worst { BoundedWorst old }
    ensures { result ≡ keep (λ (i : ℕ). i) old (local_given side (given_number of_own own) own.corner of_w w f) }
{
    match f {
        Some(found) if changes(of_own, own, w, f, old) => {
            let nearest = local_values(own.corner, w, found);
            let given = answers::given_nearest(of_w, w.count, nearest);
            Some(with_corner(side, given_number(of_own, own), given))
        }
        _ => old,
    }
}
