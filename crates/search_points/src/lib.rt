#![tactic(auto)]

// Theorems on the searches, no code. What is found was proposed by the search and accepted by the check, its trials counted (proofs/Trials); an answer's property
// is within 1e-6 of the asked one (Answered); its record is the one of its own T and d (TdRecord); and the odd places of docs/SCOPE.md, worked out by antt from
// the definitions and held to the answers of the Rust (Pressure, Isotherm).
