#![tactic(auto)]

// Points of the records, the column run and the exchange record, worked out by antt from the definitions and held to the answers of the Rust: proofs in
// proofs/, no code.
