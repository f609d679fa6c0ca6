// The Hausdorff distance of two outlines: what a comparison by steps reports. `specs/` defines the steps and the
// distance, and `proofs/` shows that the steps find it (`proofs/Law.antt`).
#![tactic(auto)]

ghost use Rattle.std.specs.Prelude.{◌≡◌};
ghost use Rattle.hausdorff.specs.Sides.{at_side};

use integers::fraction::Fraction;
use nearest::Feature;
use outline::Side;
use plane::Point;

// A corner of one outline with its gap to the other: side, corner, nearest feature, gap and nearest point. The worst so
// far is one, or none yet.
#[derive(Clone, Copy)]
pub struct CornerGap {
    pub side: Side,
    pub corner: usize,
    pub feature: Feature,
    pub gap: Fraction,
    pub point: Point,
}

// What there is of each side.
#[derive(Clone, Copy)]
pub struct Sides<T> {
    pub a: T,
    pub b: T,
}

impl<T: Copy> Sides<T> {
    // What there is of one side.
    pub fn at_side(self, side: Side) -> T
        ensures { result ≡ at_side self side }
    {
        match side {
            Side::A => self.a,
            Side::B => self.b,
        }
    }
}

// Rule 6.2: the allowance was below N, the number of edges of both. The steps made, the support corners, the worst so
// far and that of each side.
#[derive(Clone, Copy)]
pub struct Spent {
    pub steps: u32,
    pub support: Sides<usize>,
    pub worst: Option<CornerGap>,
    pub sides: Sides<Option<CornerGap>>,
}

// Rule 6.3: all steps were made. Their number, the answer, its clearance and the answer of each side.
#[derive(Clone, Copy)]
pub struct Done {
    pub steps: u32,
    pub answer: CornerGap,
    pub clearance: u64,
    pub sides: Sides<CornerGap>,
}

// What comparing two accepted outlines reports.
#[derive(Clone, Copy)]
pub enum Report {
    Spent(Spent),
    Done(Done),
}
