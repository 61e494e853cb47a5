// The choice of a point's letter (`choice`, of the Rust's r3/region3_v_pT.rs); the boundaries that it goes by are in crate boundaries.
#![tactic(auto)]

mod choice;

pub use choice::{letter_at, sub_region3_pT};
