#![tactic(auto)]

// Points of the lines and of the letter choice, worked out by antt from the definitions: the documents' check values, the starred points of docs/SCOPE.md,
// and points that meet the premises of demand 3. Proofs in proofs/, no code.
