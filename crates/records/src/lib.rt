// Outlines in a store of linked records: what a chain of records gives, and comparing the outlines of two chains.
// `specs/` defines them, and `proofs/` shows what a reader would expect of them.
#![tactic(auto)]

use plane::Corner;

// Rule 1.10: how many numbers a record has.
pub const RECORD_LENGTH: usize = 3;

// A record: x and y, and the index of the next record. The store is the caller's (rule 1.10), so indexes stay.
#[derive(Clone, Copy)]
pub struct Record {
    pub corner: Corner,
    pub next: i32,
}
