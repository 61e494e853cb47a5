// The sums over the rows I, J, n of a table, in table order (algo/polynomial.rs and algo/polynomial_steps.rs): how they are defined, and how one is gated at
// its end. `table_sums` has the sums of the printed tables, `slopes` and `joint` those of differentiated terms, and `polynomial` the Rust's calls.
#![tactic(auto)]

ghost use Rattle.std.specs.Prelude.{◌≡◌};
ghost use Rattle.common.specs.Outcome.{or_nan};
ghost use Rattle.algo.specs.Raw.{gate};

use common::is_finite;

// How often a power of a table's term is differentiated by its base.
// Kept: this and `Share` are kinds and no closures: the definitions choose by them too, and each law is stated once over all of them.
#[derive(Clone, Copy, Debug, PartialEq, Eq)]
pub enum Order {
    Zero,
    One,
    Two,
}

// How a sum takes up an item that it shares with others: whole, or differentiated by vi, by vj, or twice. The item is multiplied by its
// exponent then, and the sum is divided by the base once at its end. `IAgain` is by vi for an item that is differentiated by vi already.
#[derive(Clone, Copy, Debug, PartialEq, Eq)]
pub enum Share {
    Whole,
    I,
    IAgain,
    J,
    Ii,
    Ij,
    Jj,
}

// The number x of finite vi and vj, or a NaN.
// Kept: vi and vj are two parameters of each sum, as in the Rust.
pub fn gated(vi: f64, vj: f64, x: f64) -> f64
    ensures { result ≡ or_nan (gate vi vj x) }
{
    if is_finite(vi) && is_finite(vj) && is_finite(x) {
        x
    } else {
        f64::NAN
    }
}
