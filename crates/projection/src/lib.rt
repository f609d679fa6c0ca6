// The nearest point of an outline to a point, found in one pass over the edges.
#![tactic(auto)]

pub mod answers;
pub mod local;

ghost use Rattle.std.specs.Prelude.{◌≡◌};
ghost use Rattle.plane.specs.Range.{InRange};
ghost use Rattle.reading.specs.Accepted.{accepted_corners};
ghost use Rattle.nearest.specs.code.Local.{nearest};
ghost use Rattle.projection.specs.AtEdge.{EdgeVectors, at_edge};

use crate::local::Part;
use nearest::NearestPoint;
use plane::{Corner, Vector};
use reading::accepted::AcceptedOutline;
use reading::corners;

// What is found at edge i, as held: the nearest point to v if it is the edge's start or end or lies between them. Only if
// v is strictly right of the edge is there anything to find; the vectors from v to its start and to its end tell that.
fn at_edge(
    outline: &AcceptedOutline,
    v: Corner,
    i: usize,
    to_start: Vector,
    to_end: Vector,
) -> Option<NearestPoint>
    requires in_range { InRange v }
    requires edge_vectors { EdgeVectors (accepted_corners outline.now) v i to_start to_end }
    ensures { result ≡ at_edge (accepted_corners outline.now) v i }
{
    if !plane::turns_left(to_end, to_start) {
        return None;
    }
    let n = outline.count();
    let j = corners::next(n, i);
    let before = outline.corner(corners::previous(n, i));
    let p = outline.corner(i);
    let q = outline.corner(j);
    let after = outline.corner(corners::next(n, j));
    let part = local::nearest_part(v, before, p, q, after)?;
    Some(match part {
        Part::Start => answers::at_corner(v, i, p),
        Part::Between => answers::on_edge(v, i, p, q),
        Part::End => answers::at_corner(v, j, q),
    })
}

// The nearest point to v of an outline, as it is held: one pass over the edges. v is in the piece if it is strictly right
// of none, and where it is right of one, some edge that it is right of has the nearest point at its start, between its
// ends or at its end (`proofs/Pass.antt`). The vector from v to an edge's end is that to the start of the next. The
// corners are read from the list, so that none is copied.
pub fn nearest(outline: &AcceptedOutline, v: Corner) -> NearestPoint
    requires { InRange v }
    ensures { result ≡ nearest (accepted_corners outline.now) v }
{
    let n = outline.count();
    let mut to_start = plane::difference(v, outline.corner(0));
    for i in 0..n {
        let to_end = plane::difference(v, outline.corner(corners::next(n, i)));
        if let Some(nearest) = at_edge(outline, v, i, to_start, to_end) {
            return nearest;
        }
        to_start = to_end;
    }
    answers::within(v)
}
