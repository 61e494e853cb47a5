// The laws of powers stand in proofs/, what they say in specs/: there is no code.

#![tactic(auto)]
