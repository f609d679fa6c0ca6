// Refusals and answers as numbers, for callers in C: a status by value, and results as lists of `i64`.
#![tactic(auto)]

pub mod results;
pub mod status;
