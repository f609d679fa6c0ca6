// What of an outline is the nearest feature to v, told at one corner or edge and the corners next to it alone.
ghost use Rattle.std.specs.Prelude.{◌≡◌, true};
ghost use Rattle.plane.specs.Range.{InRange};
ghost use Rattle.plane.specs.Vector.{◌⇀◌};
ghost use Rattle.plane.specs.code.Tests.{is_right};
ghost use Rattle.nearest.specs.code.Local.{foot_is_between, corner_is_nearest};
ghost use Rattle.projection.specs.Part.{nearest_part};

use plane::Corner;

// A part of an edge: its start, strictly between its ends, its end.
#[derive(Clone, Copy)]
pub enum Part {
    Start,
    Between,
    End,
}

// Whether the foot of v on the line from p to q lies strictly between them.
fn foot_is_between(v: Corner, p: Corner, q: Corner) -> bool
    requires in_range { InRange v }
    requires in_range_2 { InRange p }
    requires in_range_3 { InRange q }
    ensures { result ≡ foot_is_between v p q }
{
    let run = plane::difference(p, q);
    let along = plane::dot(plane::difference(p, v), run);
    if along <= 0 {
        return false;
    }
    along < plane::squared_length(run)
}

// Whether the corner c, with the corners before and after it, is the nearest feature.
fn corner_is_nearest(v: Corner, before: Corner, c: Corner, after: Corner) -> bool
    requires in_range { InRange v }
    requires in_range_2 { InRange before }
    requires in_range_3 { InRange c }
    requires in_range_4 { InRange after }
    ensures { result ≡ corner_is_nearest v before c after }
{
    let to = plane::difference(c, v);
    if 0 < plane::dot(to, plane::difference(c, after)) {
        return false;
    }
    if 0 < plane::dot(to, plane::difference(c, before)) {
        return false;
    }
    c != v
}

// The part of the edge from p to q, with the corners before and after it, that is the nearest feature, if one is; v
// is strictly right of the edge. (The corners stay apart, as the definition has them.)
pub fn nearest_part(v: Corner, before: Corner, p: Corner, q: Corner, after: Corner) -> Option<Part>
    requires in_range { InRange v }
    requires in_range_2 { InRange before }
    requires in_range_3 { InRange p }
    requires in_range_4 { InRange q }
    requires in_range_5 { InRange after }
    requires v_value { is_right p (p ⇀ q) v ≡ true }
    ensures { result ≡ nearest_part v before p q after }
{
    if foot_is_between(v, p, q) {
        return Some(Part::Between);
    }
    if corner_is_nearest(v, before, p, q) {
        return Some(Part::Start);
    }
    if corner_is_nearest(v, p, q, after) {
        return Some(Part::End);
    }
    None
}
