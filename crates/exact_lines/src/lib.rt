#![tactic(auto)]

// The lines of region 3 and its letters by exact arithmetic, and what these definitions are held to: statements in specs/, proofs in proofs/, no code.
