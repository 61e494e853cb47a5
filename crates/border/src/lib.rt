// The border between regions 2 and 3: R7-97, equations 5 and 6 (common/boundaries.rs). First the steps of each, then the calls, then the test that
// (p,T) lies on region 3's side. The steps are raw: a number that is lost travels as itself to the end.
#![tactic(auto, using(common::proofs::Calls::passed_on, common::proofs::Calls::went_in))]

ghost use Rattle.std.specs.Prelude.{◌≡◌, cond, not};
ghost use Rattle.std.specs.Float.{binary64};
ghost use Rattle.std.specs.Float.Ieee.{add, lt};
ghost use Rattle.common.specs.Outcome.{value, refused, or_nan};
ghost use Rattle.common.specs.Formula.{Raw};
ghost use Rattle.common.specs.Answer.{paper};
ghost use Rattle.common.specs.Range.{pT_box};
ghost use Rattle.inverses.specs.Root.{root_rule};
ghost use Rattle.border.specs.Border.{n4, B23_T2p, B23_T2p_rule, B23_p2T, B23_p2T_rule, beside_border, region3_box};

use common::{Kelvin, MPa, P_RANGE, Refusal, T_RANGE, check_only, check_pT, finite_or_nan, settle};
use inverses::raw_root;

// R7-97, table 1
const N1: f64 = 0.34805185628969e3;

const N2: f64 = -0.11671859879975e1;

const N3: f64 = 0.10192970039326e-2;

const N4: f64 = 0.57254459862746e3;

const N5: f64 = 0.13918839778870e2;

// Equation 5.
fn t2p_steps(t: f64) -> f64
    ensures { Raw (B23_T2p t) result }
{
    N1 + (N2 + N3 * t) * t
}

// Equation 6.
fn p2t_steps(p: f64) -> f64
    ensures { Raw (B23_p2T p) result }
{
    N4 + raw_root((p - N5) / N3)
}

// Kept: this and the next, and the two of r4, are alike: each is a name of the Rust's, with its own unit, range and equation.
// The border's pressure in MPa.
pub fn B23_T2p(t: Kelvin) -> Result<f64, Refusal>
    ensures { paper result ≡ B23_T2p_rule t.0 }
{
    check_only(t.0, T_RANGE)?;
    settle(t2p_steps(t.0))
}

// The border's temperature in K.
pub fn B23_p2T(p: MPa) -> Result<f64, Refusal>
    ensures { paper result ≡ B23_p2T_rule p.0 }
{
    check_only(p.0, P_RANGE)?;
    settle(p2t_steps(p.0))
}

// For the layers above, which test once at the end: the equations at any T and p, and a NaN where a step is refused.
pub fn raw_B23_T2p(t: Kelvin) -> f64
    ensures { result ≡ or_nan (B23_T2p t.0) }
{
    finite_or_nan(t2p_steps(t.0))
}

pub fn raw_B23_p2T(p: MPa) -> f64
    ensures { result ≡ or_nan (B23_p2T p.0) }
{
    finite_or_nan(p2t_steps(p.0))
}

// How far below T the border is taken to lie, in K, where T is held to be above it without the root.
const MARGIN: f64 = 0.001;

// Whether T is not above N4 + root(q).
fn by_root(q: f64, t: f64) -> bool
    ensures { result ≡ not (lt (add binary64 (or_nan n4) (or_nan (root_rule q))) t) }
{
    !(N4 + raw_root(q) < t)
}

// Whether T is not above the border, for p and T of the box. The border is N4 + root(q), so where (T - N4)^2 is below q, or above it by the margin,
// the root need not be worked: rounding keeps the order (proofs/Roots).
fn beside(p: f64, t: f64) -> bool
    requires { pT_box p t ≡ value tt }
    ensures { cond result (value tt) (refused 8) ≡ beside_border p t }
{
    let q = (p - N5) / N3;
    let d = t - N4;
    if d * d < q && t <= N4 + d {
        return true;
    }
    let e = d - MARGIN;
    if q < e * e && N4 + e < t {
        return false;
    }
    by_root(q, t)
}

// The checks of a call with (p,T) that answers in region 3 alone: the box, then 8 beyond the border with region 2.
#[tactic(auto, unfolding(crate::specs::Border::region3_box))]
pub fn check_region3(p: MPa, t: Kelvin) -> Result<(), Refusal>
    ensures { paper result ≡ region3_box p.0 t.0 }
{
    check_pT(p, t)?;
    if !beside(p.0, t.0) {
        return Err(Refusal::Border);
    }
    Ok(())
}
