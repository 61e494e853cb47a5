// The column run: `columns_of` is the run under its units; `columns` takes the slices as a caller in C lends them.
#![tactic(auto)]

mod run;
mod units;

pub use run::columns;
pub use units::columns_of;

// A lent column of pressures in MPa.
#[derive(Clone, Copy)]
pub struct Pressures<'a>(pub &'a [f64]);

// A lent column of temperatures in K.
#[derive(Clone, Copy)]
pub struct Temperatures<'a>(pub &'a [f64]);
