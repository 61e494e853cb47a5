#![tactic(auto)]

// The laws of rounding errors stand in proofs/, the distance between numbers in specs/: there is no code.
