// The sums of a caller's columns, to the end of the shortest: NaN where the rule refuses them. `columns` has how far a column's exponents go, `raw` the sums.
#![tactic(auto)]

mod columns;
mod raw;

pub use raw::{raw_four, raw_pair, raw_sum};
