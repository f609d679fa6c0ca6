// The examples of section 10 of docs/SPECIFICATION.md that are proved: `specs/Cases.antt` lists them,
// `proofs/Claim.antt` proves them together, from the definitions alone.

#![tactic(auto)]
