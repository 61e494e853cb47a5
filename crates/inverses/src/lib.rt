// The two written rules that take an f64 apart by its bits: root and logarithm, each with one order of rounded operations.
// A module has the name of the Rust method that its rule replaces. Each rule has a raw form for the layers above, in which a number
// that is lost travels as itself.
#![tactic(auto)]

mod ln;
mod parts;
mod sqrt;

pub use ln::{logarithm, raw_logarithm};
pub use sqrt::{raw_root, root};
