// The sum of an equation's table.
ghost use Rattle.std.specs.Prelude.{◌≡◌};
ghost use Rattle.common.specs.Outcome.{or_nan};
ghost use Rattle.algo.specs.Table.{sum_rule, term};
ghost use Rattle.backward_equations.specs.Equation.{table_of};

use crate::Equation;
use tables_ph::{T3aPh, T3bPh, V3aPh, V3bPh};
use tables_ps_hs::{P3aHs, P3bHs, T3aPs, T3bPs, V3aPs, V3bPs};

// Kept: a match over the kind, as the definition `table_of` (the reason stands at `Equation`).
pub fn sum(e: Equation, x: f64, y: f64) -> f64
    ensures { result ≡ or_nan (sum_rule term x y (table_of e)) }
{
    match e {
        Equation::T3aPh => table_sums::sum::<T3aPh>(x, y),
        Equation::T3bPh => table_sums::sum::<T3bPh>(x, y),
        Equation::V3aPh => table_sums::sum::<V3aPh>(x, y),
        Equation::V3bPh => table_sums::sum::<V3bPh>(x, y),
        Equation::T3aPs => table_sums::sum::<T3aPs>(x, y),
        Equation::T3bPs => table_sums::sum::<T3bPs>(x, y),
        Equation::V3aPs => table_sums::sum::<V3aPs>(x, y),
        Equation::V3bPs => table_sums::sum::<V3bPs>(x, y),
        Equation::P3aHs => table_sums::sum::<P3aHs>(x, y),
        Equation::P3bHs => table_sums::sum::<P3bHs>(x, y),
    }
}
