// The printed tables, as definitions in specs/, each pinned to the text of the Rust in proofs/: there is no code.

#![tactic(auto)]
