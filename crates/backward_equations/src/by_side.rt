// What the equation of a side gives: T or v from (p,h) and from (p,s), p from (h,s). A number that is lost is a NaN.
// Kept: five functions of one line, since each pair stands under its units.
ghost use Rattle.common.specs.Number.{Number};
ghost use Rattle.backward_equations.specs.Equation.{worked, of_side, ph2T_on, ph2v_on, ps2T_on, ps2v_on, hs2p_on};

use crate::pattern::raw_worked;
use crate::{Equation, Side};
use common::{KJPerKg, KJPerKgK, MPa};

// a of 3a, b of 3b.
fn raw_on(side: Side, a: Equation, b: Equation, x: f64, y: f64) -> f64
    ensures { Number (worked (of_side side a b) x y) result }
{
    match side {
        Side::A => raw_worked(a, x, y),
        Side::B => raw_worked(b, x, y),
    }
}

// The temperature in K from (p,h).
pub fn raw_ph2T(side: Side, p: MPa, h: KJPerKg) -> f64
    ensures { Number (ph2T_on side p.0 h.0) result }
{
    raw_on(side, Equation::T3aPh, Equation::T3bPh, p.0, h.0)
}

// The volume in m3/kg from (p,h).
pub fn raw_ph2v(side: Side, p: MPa, h: KJPerKg) -> f64
    ensures { Number (ph2v_on side p.0 h.0) result }
{
    raw_on(side, Equation::V3aPh, Equation::V3bPh, p.0, h.0)
}

// The temperature in K from (p,s).
pub fn raw_ps2T(side: Side, p: MPa, s: KJPerKgK) -> f64
    ensures { Number (ps2T_on side p.0 s.0) result }
{
    raw_on(side, Equation::T3aPs, Equation::T3bPs, p.0, s.0)
}

// The volume in m3/kg from (p,s).
pub fn raw_ps2v(side: Side, p: MPa, s: KJPerKgK) -> f64
    ensures { Number (ps2v_on side p.0 s.0) result }
{
    raw_on(side, Equation::V3aPs, Equation::V3bPs, p.0, s.0)
}

// The pressure in MPa from (h,s).
pub fn raw_hs2p(side: Side, h: KJPerKg, s: KJPerKgK) -> f64
    ensures { Number (hs2p_on side h.0 s.0) result }
{
    raw_on(side, Equation::P3aHs, Equation::P3bHs, h.0, s.0)
}
