// The convex hull of some points, as an outline, and a mark for every point. `specs/` defines it, and `proofs/` shows
// what a reader would expect of it.
#![tactic(auto)]
