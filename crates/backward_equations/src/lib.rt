// The ten backward equations of region 3, each with its table and its numbers: S03rev for (p,h) and (p,s), S04rev for (h,s). They are asked for by the side
// of region 3 on which they hold (`by_side`).
#![tactic(auto)]

mod by_side;
mod pattern;
mod sums;

pub use by_side::{raw_hs2p, raw_ph2T, raw_ph2v, raw_ps2T, raw_ps2v};

// A side of region 3: 3a up to the dividing line, which belongs to it, and 3b above.
#[derive(Clone, Copy, Debug, PartialEq, Eq)]
pub enum Side {
    A,
    B,
}

// An equation: what it gives, on which side, and from what.
// Kept: a kind and no trait on the ten tables' types: the definitions `table_of` and `form_of` choose by the kind, as `sum` and `form` do.
#[derive(Clone, Copy, Debug, PartialEq, Eq)]
enum Equation {
    T3aPh,
    T3bPh,
    V3aPh,
    V3bPh,
    T3aPs,
    T3bPs,
    V3aPs,
    V3bPs,
    P3aHs,
    P3bHs,
}

// The form of an equation at x and y, with its numbers z, x*, a, y*, b.
// Kept: no struct of the five, which would stand beside a kind: a form is written out with its numbers as it is printed.
#[derive(Clone, Copy, Debug, PartialEq)]
enum Form {
    // z times the sum at x / x* + a and y / y* - b
    Plus(f64, f64, f64, f64, f64),
    // z times the sum at x / x* - a and y / y* - b
    Less(f64, f64, f64, f64, f64),
    // z over the sum at x / x* - a and y / y* - b
    Over(f64, f64, f64, f64, f64),
}
