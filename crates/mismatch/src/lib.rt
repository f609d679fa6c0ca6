// The mismatch sum of two outlines: the squared distance of every corner of each to the other piece, brought down to a
// whole number of units, and these added. `specs/` defines it, and `proofs/` shows what a reader would expect of it.
#![tactic(auto)]

// Rule 4.9: how many units make a square millimetre.
pub const UNITS: u64 = 1024;
