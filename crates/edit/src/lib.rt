// Editing the corner list of an outline: removing a corner, and inserting one. No functions: `specs/` defines both, and
// `proofs/` shows what a reader would expect of them, and that each undoes the other.

#![tactic(auto)]
