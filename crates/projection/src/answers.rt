// What is answered for each kind of feature.
ghost use Rattle.std.specs.Prelude.{◌≡◌, ◌+ℤ◌, ◌*ℤ◌};
ghost use Rattle.integers.specs.Size.{AtMost};
ghost use Rattle.plane.specs.Range.{InRange, limit};
ghost use Rattle.plane.specs.code.Range.{Span, reach, product_limit};
ghost use Rattle.nearest.specs.Feature.{within_values, corner_values, edge_gap, foot_on, edge_values};
ghost use Rattle.nearest.specs.Given.{given_feature, given_nearest};
ghost use Rattle.nearest.specs.code.Given.{FeatureBelow};

use integers::fraction::Fraction;
use nearest::{Feature, NearestPoint};
use outline::Orientation;
use plane::{Corner, Point, Vector};
use reading::corners::{given_corner, given_edge};

// v is in the piece.
pub fn within(v: Corner) -> NearestPoint
    ensures { result ≡ within_values v }
{
    NearestPoint {
        feature: Feature::Within,
        gap: Fraction { upper: 0, lower: 1 },
        point: Point::from(v),
    }
}

// Corner i, which is c.
pub fn at_corner(v: Corner, i: usize, c: Corner) -> NearestPoint
    requires in_range { InRange v }
    requires in_range_2 { InRange c }
    ensures { result ≡ corner_values v i c }
{
    let gap = plane::squared_length(plane::difference(c, v));
    NearestPoint {
        feature: Feature::Corner(i),
        gap: Fraction {
            upper: gap as u64,
            lower: 1,
        },
        point: Point::from(c),
    }
}

// The gap on an edge: the square of the side number over the edge's squared length. `run` has the edge's
// differences and `to` those from the edge's start to the point.
fn edge_gap(run: Vector, to: Vector) -> Fraction
    requires span { Span reach run }
    requires span_2 { Span reach to }
    ensures { result ≡ edge_gap run to }
{
    let side = plane::cross(run, to);
    let length = plane::squared_length(run);
    Fraction {
        upper: (side * side) as u64,
        lower: length as u64,
    }
}

// A coordinate of the foot, times the edge's squared length: of the edge it has `start` and `run`, and the foot
// lies `along` it.
fn coordinate(length: i64, start: i32, along: i64, run: i64) -> i64
    requires at_most { AtMost product_limit length }
    requires at_most_2 { AtMost limit start }
    requires at_most_3 { AtMost product_limit along }
    requires at_most_4 { AtMost reach run }
    ensures { result ≡ length *ℤ start +ℤ along *ℤ run }
{
    let from = start as i64;
    length * from + along * run
}

// The foot of a point on an edge that runs from `start`.
fn foot(start: Corner, run: Vector, to: Vector) -> Point
    requires in_range { InRange start }
    requires span { Span reach run }
    requires span_2 { Span reach to }
    ensures { result ≡ foot_on start run to }
{
    let length = plane::squared_length(run);
    let along = plane::dot(to, run);
    Point {
        x: coordinate(length, start.x, along, run.x),
        y: coordinate(length, start.y, along, run.y),
        lower: length as u64,
    }
}

// Edge i, from p to q.
pub fn on_edge(v: Corner, i: usize, p: Corner, q: Corner) -> NearestPoint
    requires in_range { InRange v }
    requires in_range_2 { InRange p }
    requires in_range_3 { InRange q }
    ensures { result ≡ edge_values v i p q }
{
    let run = plane::difference(p, q);
    let to = plane::difference(p, v);
    NearestPoint {
        feature: Feature::Edge(i),
        gap: edge_gap(run, to),
        point: foot(p, run, to),
    }
}

// A feature of an outline of n corners by its number in the list as given.
fn given_feature(orientation: Orientation, n: usize, feature: Feature) -> Feature
    requires { FeatureBelow n feature }
    ensures { result ≡ given_feature orientation n feature }
{
    match feature {
        Feature::Within => Feature::Within,
        Feature::Corner(i) => Feature::Corner(given_corner(orientation, n, i)),
        Feature::Edge(i) => Feature::Edge(given_edge(orientation, n, i)),
    }
}

// A nearest point with its feature by the number in the list as given.
pub fn given_nearest(orientation: Orientation, n: usize, a: NearestPoint) -> NearestPoint
    requires { FeatureBelow n a.feature }
    ensures { result ≡ given_nearest orientation n a }
{
    let feature = a.feature;
    let gap = a.gap;
    let point = a.point;
    NearestPoint {
        feature: given_feature(orientation, n, feature),
        gap: gap,
        point: point,
    }
}
