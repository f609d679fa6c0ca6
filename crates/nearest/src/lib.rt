// What is answered for the nearest point of an outline to a point.
#![tactic(auto)]

use integers::fraction::Fraction;
use plane::Point;

// Rule 3.3, the nearest feature. `Within`: the point is in the piece. `Edge(i)`: strictly between the ends of edge i.
#[derive(Clone, Copy)]
pub enum Feature {
    Within,
    Corner(usize),
    Edge(usize),
}

// The nearest feature, the gap (the squared distance) and the nearest point.
#[derive(Clone, Copy)]
pub struct NearestPoint {
    pub feature: Feature,
    pub gap: Fraction,
    pub point: Point,
}
