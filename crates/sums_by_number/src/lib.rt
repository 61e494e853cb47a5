// The eleven table sums by number, for the program that writes what they come to: which number names which sum and what each comes to (`sums`),
// in its shape (`shape`).
#![tactic(auto)]

mod shape;
mod sums;

pub use sums::{UNKNOWN, sum_of, work};

// The sums, in the order of their numbers and with the Rust's names.
#[derive(Clone, Copy, Debug, PartialEq, Eq)]
pub enum Sum {
    Poly,
    PolyI,
    PolyIi,
    PolyIj,
    PolyJ,
    PolyJj,
    Polys0J,
    PolysIJ,
    PolysIIj,
    PolysIIi,
    PolysIIiIjJj,
}
