// General facts on lists and on what is found at the places 0, 1, .. below a number. No functions: `specs/` defines,
// `proofs/` proves.

#![tactic(auto)]
