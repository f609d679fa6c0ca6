// An outline as a value, and what is refused and why.
#![tactic(auto)]

ghost use Rattle.std.specs.Prelude.{◌≡◌};
ghost use Rattle.outline.specs.Fault.{number};

use plane::Corner;

// How few and how many corners an outline can have.
pub const FEWEST: usize = 3;

pub const MOST: usize = 256;

// An outline as one value: how many corners it has, and places for 256 of them, the unused ones zero (rule 1.7).
#[derive(Clone, Copy)]
pub struct Outline {
    pub count: usize,
    pub corners: [Corner; MOST],
}

// One of the two outlines of a call that takes two.
#[derive(Clone, Copy)]
pub enum Side {
    A,
    B,
}

// The place of a refusal: none, one number, or an edge and a corner.
#[derive(Clone, Copy)]
pub enum Place {
    Nowhere,
    At(usize),
    EdgeAndCorner(usize, usize),
}

// Rule 2.4, why a call refuses, in the order of their numbers.
#[derive(Clone, Copy, PartialEq, Eq)]
pub enum Fault {
    OddLength,
    TooFew,
    TooMany,
    OutOfRange,
    Repeated,
    NotLeft,
    PointOutOfRange,
    NoSuchCorner,
    WrongLength,
    PartialRecord,
    ChainTooLong,
    NoSuchRecord,
}

// The number that a fault has.
impl From<Fault> for u32 {
    ghost from_gives = { λ f n. n ≡ number f };

    fn from(fault: Fault) -> u32 {
        match fault {
            Fault::OddLength => 1,
            Fault::TooFew => 2,
            Fault::TooMany => 3,
            Fault::OutOfRange => 4,
            Fault::Repeated => 5,
            Fault::NotLeft => 6,
            Fault::PointOutOfRange => 7,
            Fault::NoSuchCorner => 8,
            Fault::WrongLength => 9,
            Fault::PartialRecord => 10,
            Fault::ChainTooLong => 11,
            Fault::NoSuchRecord => 12,
        }
    }
}

// Rule 2.1, a refusal. It has no side in a call with one outline.
#[derive(Clone, Copy)]
pub struct Refusal {
    pub fault: Fault,
    pub side: Option<Side>,
    pub place: Place,
}

// Rule 1.9, how the corners of a list go round.
#[derive(Clone, Copy)]
pub enum Orientation {
    Counterclockwise,
    Clockwise,
}

// What the default reading of a list gives: the outline as it is held, and the orientation of the list.
#[derive(Clone, Copy)]
pub struct EitherReading {
    pub outline: Outline,
    pub orientation: Orientation,
}
