// Points of the volumes and the backward equations, worked out by antt from the definitions and held to the published check values; and that a promise
// on an outcome is one on the number and values that a caller is told, for every answer. Proofs in proofs/, definitions in specs/, no code.

#![tactic(auto)]
