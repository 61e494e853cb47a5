// The six further properties that work p, by the formulas of the Rust's region3_Td_ext.rs. They answer, since that p is range-tested at its place. The
// checks of the box are the callers'.
// Kept: T and d are two parameters of each call, as in the Rust, each with its unit.
#![tactic(auto)]

ghost use Rattle.std.specs.Prelude.{◌≡◌};
ghost use Rattle.common.specs.Outcome.{check, then};
ghost use Rattle.common.specs.Answer.{paper};
ghost use Rattle.record.specs.State.{pressure_of};
ghost use Rattle.extended_with_p.specs.WithP.{Td2z, Td2ks, Td2batap, Td2fu, Td2pc, Td2alfap};

use common::{Kelvin, KgPerM3, MPa, RGAS_WATER, Refusal, over, settle};
use extended::{raw_dpdtcv, raw_ec, raw_fi, raw_kt};
use properties::{lost_or, raw_cp_w, raw_p, raw_v};
use record::settle_p;

// x, which is worked from p: 4 where p lies outside its range.
fn with_tested_p(p: f64, x: f64) -> Result<f64, Refusal>
    ensures { paper result ≡ then (pressure_of (check p)) (λ _. check x) }
{
    settle_p(MPa(p))?;
    settle(x)
}

// OZ, the compressibility factor: v, then p.
pub fn state_z(t: Kelvin, d: KgPerM3) -> Result<f64, Refusal>
    ensures { paper result ≡ Td2z (check t.0) (check d.0) }
{
    let v = raw_v(t, d);
    let p = raw_p(t, d);
    with_tested_p(lost_or(v, p), over(1000.0 * p * v / RGAS_WATER, t.0))
}

// OKS, the isentropic exponent: w's half of the joint operation, then p.
pub fn state_ks(t: Kelvin, d: KgPerM3) -> Result<f64, Refusal>
    ensures { paper result ≡ Td2ks (check t.0) (check d.0) }
{
    let w = raw_cp_w(t, d).w;
    let p = raw_p(t, d);
    with_tested_p(lost_or(w, p), over(1.0e-6 * w * w * d.0, p))
}

// OBETAP, the isothermal stress coefficient, kg/m3: kt, then p.
pub fn state_batap(t: Kelvin, d: KgPerM3) -> Result<f64, Refusal>
    ensures { paper result ≡ Td2batap (check t.0) (check d.0) }
{
    let kt = raw_kt(t, d);
    let p = raw_p(t, d);
    with_tested_p(lost_or(kt, p), over(d.0, p * kt))
}

// OFU, the fugacity, MPa: fi, then p.
pub fn state_fu(t: Kelvin, d: KgPerM3) -> Result<f64, Refusal>
    ensures { paper result ≡ Td2fu (check t.0) (check d.0) }
{
    let fi = raw_fi(t, d);
    let p = raw_p(t, d);
    with_tested_p(lost_or(fi, p), p * fi)
}

// OPC, the isochoric pressure coefficient, 1/K: p first.
pub fn state_pc(t: Kelvin, d: KgPerM3) -> Result<f64, Refusal>
    ensures { paper result ≡ Td2pc (check t.0) (check d.0) }
{
    let p = raw_p(t, d);
    with_tested_p(p, over(1.0, p) * raw_dpdtcv(t, d))
}

// OALFAP, the relative pressure coefficient, 1/K: p first.
pub fn state_alfap(t: Kelvin, d: KgPerM3) -> Result<f64, Refusal>
    ensures { paper result ≡ Td2alfap (check t.0) (check d.0) }
{
    let p = raw_p(t, d);
    let ec = raw_ec(t, d);
    let kt = raw_kt(t, d);
    with_tested_p(p, over(over(ec, p), kt))
}
