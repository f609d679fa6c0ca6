#![tactic(auto)]

pub mod fraction;
pub mod root;
