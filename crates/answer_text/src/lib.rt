// The parts of an answer as text, for the lines of the programs.
// No impl of Display: what it writes is promised on Ok alone, and `fit_text::respond` promises its text on every input.
#![tactic(auto)]

ghost use Rattle.std.specs.Prelude.{◌≡◌};
ghost use Rattle.text.specs.code.Output.{appended};
ghost use Rattle.answer_text.specs.Parts.{side_text, corner_text, feature_text, fraction_text, coordinate_text};
ghost use Rattle.answer_text.specs.Parts.{point_text, refused_side_text, place_text, refusal_text};

use integers::fraction::Fraction;
use nearest::Feature;
use outline::{Place, Refusal, Side};
use plane::Point;
use text::output::Text;

fn side(t: Text, side: Side) -> Text
    ensures { result ≡ appended t (side_text side) }
{
    match side {
        Side::A => t.bytes(b"A"),
        Side::B => t.bytes(b"B"),
    }
}

// A corner of a side.
pub fn corner(t: Text, of: Side, corner: usize) -> Text
    ensures { result ≡ appended t (corner_text of corner) }
{
    side(t, of).bytes(b" ").natural(corner as u64)
}

pub fn feature(t: Text, feature: Feature) -> Text
    ensures { result ≡ appended t (feature_text feature) }
{
    match feature {
        Feature::Within => t.bytes(b"within"),
        Feature::Corner(i) => t.bytes(b"corner ").natural(i as u64),
        Feature::Edge(i) => t.bytes(b"edge ").natural(i as u64),
    }
}

pub fn fraction(t: Text, f: Fraction) -> Text
    ensures { result ≡ appended t (fraction_text f) }
{
    t.natural(f.upper).bytes(b"/").natural(f.lower)
}

fn coordinate(t: Text, upper: i64, lower: u64) -> Text
    ensures { result ≡ appended t (coordinate_text upper lower) }
{
    t.signed(upper).bytes(b"/").natural(lower)
}

pub fn point(t: Text, p: Point) -> Text
    ensures { result ≡ appended t (point_text p) }
{
    let t = coordinate(t, p.x, p.lower).bytes(b" ");
    coordinate(t, p.y, p.lower)
}

fn refused_side(t: Text, refused: Option<Side>) -> Text
    ensures { result ≡ appended t (refused_side_text refused) }
{
    match refused {
        None => t,
        Some(of) => side(t.bytes(b" "), of),
    }
}

// The numbers of a place after some bytes, or nothing.
pub fn place(t: Text, before: &[u8], place: Place) -> Text
    ensures { result ≡ appended t (place_text before.now place) }
{
    match place {
        Place::Nowhere => t,
        Place::At(i) => t.bytes(before).natural(i as u64),
        Place::EdgeAndCorner(edge, corner) => t
            .bytes(before)
            .natural(edge as u64)
            .bytes(b" ")
            .natural(corner as u64),
    }
}

// A refusal with its side, if any, its number and the numbers of its place, if any.
pub fn refusal(t: Text, refusal: Refusal) -> Text
    ensures { result ≡ appended t (refusal_text refusal) }
{
    let side = refusal.side;
    let at = refusal.place;
    let t = refused_side(t.bytes(b"refused"), side);
    let t = t.bytes(b" ").natural(u32::from(refusal.fault) as u64);
    place(t, b" ", at)
}
