// The saturation line of region 4: R7-97, equations 30 and 31. First the steps of each, then the calls.
// The steps are raw: a number that is lost travels as itself to the end, and only a divisor is tested before it could be hidden.
#![tactic(auto)]

ghost use Rattle.std.specs.Prelude.{◌≡◌, Float};
ghost use Rattle.common.specs.Outcome.{Outcome, or_nan};
ghost use Rattle.common.specs.Formula.{Raw};
ghost use Rattle.common.specs.Answer.{paper};
ghost use Rattle.r4.specs.Saturation.{p_saturation, p_saturation_rule, T_saturation, T_saturation_rule};
ghost use Rattle.r4.specs.Quotients.{quotient_of, quotient_d};

use common::{
    Kelvin, MPa, P_SATURATED, Refusal, T_SATURATED, check_only, finite_or_nan, or_nan, over, settle,
};
use inverses::raw_root;
use rules::power;

// R7-97, table 34
const N1: f64 = 0.11670521452767e4;

const N2: f64 = -0.72421316703206e6;

const N3: f64 = -0.17073846940092e2;

const N4: f64 = 0.12020824702470e5;

const N5: f64 = -0.32325550322333e7;

const N6: f64 = 0.14915108613530e2;

const N7: f64 = -0.48232657361591e4;

const N8: f64 = 0.40511340542057e6;

const N9: f64 = -0.23855557567849;

const N10: f64 = 0.65017534844798e3;

// Of equation 30 the quotient whose fourth power is p, by ϑ.
fn quotient(theta: f64) -> f64
    ensures { (ϑ : Outcome Float) → Raw ϑ theta → Raw (quotient_of ϑ) result }
{
    let a = theta * (theta + N1) + N2;
    let b = theta * (N3 * theta + N4) + N5;
    let c = theta * (N6 * theta + N7) + N8;
    over(2.0 * c, -b + raw_root(b * b - 4.0 * a * c))
}

// Equation 30.
fn p_steps(t: f64) -> f64
    ensures { Raw (p_saturation t) result }
{
    or_nan(power(quotient(t + over(N9, t - N10)), 4))
}

// Of equation 31 the quotient D, by β.
// Kept: `quotient` and this differ in the root's sign and in the coefficients' places. One function of both would take eight coefficients and the sign, and
// neither equation would stand as printed.
fn quotient_d(beta: f64) -> f64
    ensures { (β : Outcome Float) → Raw β beta → Raw (quotient_d β) result }
{
    let e = beta * (beta + N3) + N6;
    let f = beta * (N1 * beta + N4) + N7;
    let g = beta * (N2 * beta + N5) + N8;
    over(2.0 * g, -f - raw_root(f * f - 4.0 * e * g))
}

// Equation 31.
fn t_steps(p: f64) -> f64
    ensures { Raw (T_saturation p) result }
{
    let d = quotient_d(raw_root(raw_root(p)));
    let square = (N10 + d) * (N10 + d) - 4.0 * (N9 + N10 * d);
    0.5 * (N10 + d - raw_root(square))
}

// Kept: this and the next are alike, and as the border's two: each is a name of the Rust's, with its own unit, range and equation.
// The saturation pressure in MPa.
pub fn p_saturation(t: Kelvin) -> Result<f64, Refusal>
    ensures { paper result ≡ p_saturation_rule t.0 }
{
    check_only(t.0, T_SATURATED)?;
    settle(p_steps(t.0))
}

// The saturation temperature in K.
pub fn T_saturation(p: MPa) -> Result<f64, Refusal>
    ensures { paper result ≡ T_saturation_rule p.0 }
{
    check_only(p.0, P_SATURATED)?;
    settle(t_steps(p.0))
}

// For the layers above, which have tested p and test once more at the end: equation 31 at any p, and a NaN where a step is refused.
pub fn raw_T_saturation(p: MPa) -> f64
    ensures { result ≡ or_nan (T_saturation p.0) }
{
    finite_or_nan(t_steps(p.0))
}
