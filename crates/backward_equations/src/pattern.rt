// What the backward equations share: reduce, shift, sum and scale. The steps are raw: a number that is lost travels as itself to the end, where it
// is tested once.
ghost use Rattle.std.specs.Prelude.{◌≡◌};
ghost use Rattle.common.specs.Outcome.{check};
ghost use Rattle.common.specs.Number.{Number};
ghost use Rattle.backward_equations.specs.Equation.{table_of, form_of, worked_by, worked};

use crate::sums::sum;
use crate::{Equation, Form};
use common::{finite_or_nan, over};

// Kept: a match over the kind, as the definition `form_of` (the reason stands at `Equation`).
fn form(e: Equation) -> Form
    ensures { result ≡ form_of e }
{
    match e {
        Equation::T3aPh => Form::Plus(760.0, 100.0, 0.240, 2300.0, 0.615),
        Equation::T3bPh => Form::Plus(860.0, 100.0, 0.298, 2800.0, 0.720),
        Equation::V3aPh => Form::Plus(0.0028, 100.0, 0.128, 2100.0, 0.727),
        Equation::V3bPh => Form::Plus(0.0088, 100.0, 0.0661, 2800.0, 0.720),
        Equation::T3aPs => Form::Plus(760.0, 100.0, 0.240, 4.4, 0.703),
        Equation::T3bPs => Form::Plus(860.0, 100.0, 0.760, 5.3, 0.818),
        Equation::V3aPs => Form::Plus(0.0028, 100.0, 0.187, 4.4, 0.755),
        Equation::V3bPs => Form::Plus(0.0088, 100.0, 0.298, 5.3, 0.816),
        Equation::P3aHs => Form::Less(99.0, 2300.0, 1.01, 4.4, 0.75),
        Equation::P3bHs => Form::Over(16.6, 2800.0, 0.681, 5.3, 0.792),
    }
}

fn worked_by(f: Form, e: Equation, x: f64, y: f64) -> f64
    ensures { check result ≡ worked_by f (table_of e) x y }
{
    match f {
        Form::Plus(z, xs, a, ys, b) => z * sum(e, x / xs + a, y / ys - b),
        Form::Less(z, xs, a, ys, b) => z * sum(e, x / xs - a, y / ys - b),
        Form::Over(z, xs, a, ys, b) => over(z, sum(e, x / xs - a, y / ys - b)),
    }
}

// What an equation gives at x and y.
pub fn raw_worked(e: Equation, x: f64, y: f64) -> f64
    ensures { Number (worked e x y) result }
{
    finite_or_nan(worked_by(form(e), e, x, y))
}
