// Points of the properties, the numbers and the record at a T and a d, worked out by antt from the definitions and held to the published values: proofs in
// proofs/, no code.

#![tactic(auto)]
