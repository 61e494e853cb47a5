// Two of the four written rules, power and exponential, each with one order of rounded operations; root and logarithm are `inverses`.
// A module has the name of the Rust method that its rule replaces. Each rule has a raw form for the layers above, in which a number
// that is lost travels as itself.
#![tactic(auto)]

mod exp;
mod powi;

pub use exp::{exponential, raw_exponential};
pub use powi::{bare_power, power, raw_power};
