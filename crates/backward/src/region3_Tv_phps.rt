// Temperature and volume from (p,h) and (p,s): S03rev. The side is chosen once (`side_ph`, `side_s`), then T and v are worked on it: both with
// the density for a record (`found_ph`, `found_ps`), or one of them for a call of its own.
// Kept: the calls are twins but for the equation, the pair and the last test, each a name of the Rust's; one function over closures would be no plainer.
ghost use Rattle.std.specs.Prelude.{◌≡◌};
ghost use Rattle.common.specs.Outcome.{check};
ghost use Rattle.common.specs.Answer.{paper};
ghost use Rattle.backward.specs.Backward.{h3ab, side_ph, side_s, tvd_of, tvd_ph, tvd_ps, ph2T_reg3_rule, ph2v_reg3_rule, ps2T_reg3_rule, ps2v_reg3_rule};

use crate::Tvd;
use backward_equations::{Side, raw_ph2T, raw_ph2v, raw_ps2T, raw_ps2v};
use common::{
    KJPerKg, KJPerKgK, Kelvin, KgPerM3, M3PerKg, MPa, Refusal, SC_WATER, check_ph, check_ps, settle,
};
use record::{density, settle_t, settle_v};

// Table 2, equation 1: the enthalpy in kJ/kg that divides 3a from 3b, nested as in the Rust.
fn p2h_3ab(p: MPa) -> f64
    ensures { check result ≡ h3ab p.0 }
{
    let pi = p.0 / 1.0;
    let eta = 0.201464004206875e4
        + pi * (0.374696550136983e1 + pi * (-0.219921901054187e-1 + 0.875131686009950e-4 * pi));
    eta * 1.0
}

// The side of (p,h): 3a up to the dividing enthalpy, which belongs to it.
#[tactic(auto, unfolding(crate::specs::Backward::side_ph))]
fn side_ph(p: MPa, h: KJPerKg) -> Result<Side, Refusal>
    ensures { paper result ≡ side_ph p.0 h.0 }
{
    let line = settle(p2h_3ab(p))?;
    if h.0 <= line {
        return Ok(Side::A);
    }
    Ok(Side::B)
}

// The side of an entropy, with p or with h: 3a up to the critical one, which belongs to it.
#[tactic(auto, unfolding(std::specs::Prelude::from_bits, common::specs::Decimal::decimal, common::specs::Decimal::scaled))]
pub fn side_s(s: KJPerKgK) -> Side
    ensures { result ≡ side_s s.0 }
{
    if s.0 <= SC_WATER {
        return Side::A;
    }
    Side::B
}

// T with its test, then v and its density with its test.
fn found(t: Kelvin, v: M3PerKg) -> Result<Tvd, Refusal>
    ensures { paper result ≡ tvd_of (check t.0) (check v.0) }
{
    let t = Kelvin(settle_t(t)?);
    let d = KgPerM3(density(v)?);
    Ok(Tvd { t, v, d })
}

// T, v and d from (p,h), on the side that is chosen once, at any p and h: no box is looked at.
#[tactic(auto, unfolding(crate::specs::Backward::tvd_ph))]
pub fn found_ph(p: MPa, h: KJPerKg) -> Result<Tvd, Refusal>
    ensures { paper result ≡ tvd_ph p.0 h.0 }
{
    let side = side_ph(p, h)?;
    let t = raw_ph2T(side, p, h);
    let v = raw_ph2v(side, p, h);
    found(Kelvin(t), M3PerKg(v))
}

// T, v and d from (p,s), in the same way.
#[tactic(auto, unfolding(crate::specs::Backward::tvd_ps))]
pub fn found_ps(p: MPa, s: KJPerKgK) -> Result<Tvd, Refusal>
    ensures { paper result ≡ tvd_ps p.0 s.0 }
{
    let side = side_s(s);
    let t = raw_ps2T(side, p, s);
    let v = raw_ps2v(side, p, s);
    found(Kelvin(t), M3PerKg(v))
}

// The temperature in K from (p,h).
#[tactic(auto, unfolding(crate::specs::Backward::ph2T_reg3_rule))]
pub fn ph2T_reg3(p: MPa, h: KJPerKg) -> Result<f64, Refusal>
    ensures { paper result ≡ ph2T_reg3_rule p.0 h.0 }
{
    check_ph(p, h)?;
    let side = side_ph(p, h)?;
    settle_t(Kelvin(raw_ph2T(side, p, h)))
}

// The volume in m3/kg from (p,h).
#[tactic(auto, unfolding(crate::specs::Backward::ph2v_reg3_rule))]
pub fn ph2v_reg3(p: MPa, h: KJPerKg) -> Result<f64, Refusal>
    ensures { paper result ≡ ph2v_reg3_rule p.0 h.0 }
{
    check_ph(p, h)?;
    let side = side_ph(p, h)?;
    settle_v(M3PerKg(raw_ph2v(side, p, h)))
}

// The temperature in K from (p,s).
#[tactic(auto, unfolding(crate::specs::Backward::ps2T_reg3_rule))]
pub fn ps2T_reg3(p: MPa, s: KJPerKgK) -> Result<f64, Refusal>
    ensures { paper result ≡ ps2T_reg3_rule p.0 s.0 }
{
    check_ps(p, s)?;
    settle_t(Kelvin(raw_ps2T(side_s(s), p, s)))
}

// The volume in m3/kg from (p,s).
#[tactic(auto, unfolding(crate::specs::Backward::ps2v_reg3_rule))]
pub fn ps2v_reg3(p: MPa, s: KJPerKgK) -> Result<f64, Refusal>
    ensures { paper result ≡ ps2v_reg3_rule p.0 s.0 }
{
    check_ps(p, s)?;
    settle_v(M3PerKg(raw_ps2v(side_s(s), p, s)))
}
