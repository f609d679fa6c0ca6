// Points and vectors of the plane with whole coordinates, points with fractions, and the side number with its signs.
#![tactic(auto)]

ghost use Rattle.std.specs.Prelude.{◌≡◌};
ghost use Rattle.plane.specs.Vector.{◌⇀◌, cross, dot};
ghost use Rattle.plane.specs.code.Tests.{is_left, is_right, is_lower};
ghost use Rattle.plane.specs.code.Turn.{turns_left};
ghost use Rattle.plane.specs.Point.{whole};
ghost use Rattle.plane.specs.Range.{InRange};
ghost use Rattle.plane.specs.code.Range.{Span, reach, is_coordinate, in_range};

// A point with whole coordinates; a corner of an outline. `InRange` stays a clause: a corner that a caller gives may be out
// of range, and a type for those in range would put a field's name into every clause and definition.
#[derive(Clone, Copy, Debug, PartialEq, Eq)]
pub struct Corner {
    pub x: i32,
    pub y: i32,
}

// The signed differences of two points. `Span` stays a clause: `difference` takes any points, so a
// vector may be longer.
#[derive(Clone, Copy)]
pub struct Vector {
    pub x: i64,
    pub y: i64,
}

// A point at x / lower and y / lower, which is never reduced.
#[derive(Clone, Copy)]
pub struct Point {
    pub x: i64,
    pub y: i64,
    pub lower: u64,
}

// A point with whole coordinates, as a point over 1.
impl From<Corner> for Point {
    ghost from_gives = { λ p result. result ≡ whole p };

    fn from(p: Corner) -> Point {
        Point {
            x: i64::from(p.x),
            y: i64::from(p.y),
            lower: 1,
        }
    }
}

// The vector from p to q.
pub fn difference(p: Corner, q: Corner) -> Vector
    ensures { result ≡ p ⇀ q }
{
    Vector {
        x: i64::from(q.x) - i64::from(p.x),
        y: i64::from(q.y) - i64::from(p.y),
    }
}

// The cross product. Rule 1.3: the side number of a point against an edge is that of the edge's differences and
// those from the edge's start to the point. Of the differences of two edges it is the number whose sign orders their
// directions.
pub fn cross(a: Vector, b: Vector) -> i64
    requires span { Span reach a }
    requires span_2 { Span reach b }
    ensures { result ≡ cross a b }
{
    a.x * b.y - a.y * b.x
}

pub fn dot(a: Vector, b: Vector) -> i64
    requires span { Span reach a }
    requires span_2 { Span reach b }
    ensures { result ≡ dot a b }
{
    a.x * b.x + a.y * b.y
}

pub fn squared_length(a: Vector) -> i64
    requires { Span reach a }
    ensures { result ≡ dot a a }
{
    dot(a, a)
}

// Whether b turns strictly left of a: by less than half a turn.
pub fn turns_left(a: Vector, b: Vector) -> bool
    requires span { Span reach a }
    requires span_2 { Span reach b }
    ensures { result ≡ turns_left a b }
{
    0 < cross(a, b)
}

// Whether v is strictly left of the line that starts at `from` and has the differences `run`.
pub fn is_left(from: Corner, run: Vector, v: Corner) -> bool
    requires span { Span reach run }
    requires in_range { InRange from }
    requires in_range_2 { InRange v }
    ensures { result ≡ is_left from run v }
{
    turns_left(run, difference(from, v))
}

// Whether v is strictly right of that line.
pub fn is_right(from: Corner, run: Vector, v: Corner) -> bool
    requires span { Span reach run }
    requires in_range { InRange from }
    requires in_range_2 { InRange v }
    ensures { result ≡ is_right from run v }
{
    cross(run, difference(from, v)) < 0
}

// The largest size of a coordinate.
const LIMIT: u32 = 16000;

fn is_coordinate(z: i32) -> bool
    ensures { result ≡ is_coordinate z }
{
    z.unsigned_abs() <= LIMIT
}

// Whether a point's coordinates are in range.
#[tactic(auto, unfolding(crate::specs::code::Range::in_range))]
pub fn in_range(p: Corner) -> bool
    ensures { result ≡ in_range p }
{
    is_coordinate(p.x) && is_coordinate(p.y)
}

// Whether p is lower than q or, at the same height, left of it.
pub fn is_lower(p: Corner, q: Corner) -> bool
    ensures { result ≡ is_lower p q }
{
    (p.y, p.x) < (q.y, q.x)
}
