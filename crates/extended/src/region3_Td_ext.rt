// The eleven further properties that work no p, by the formulas of the Rust's region3_Td_ext.rs, each raw: its number, or a NaN where a step of it is
// lost.
// Kept: T and d are two parameters of each call, as in the Rust, each with its unit.
ghost use Rattle.common.specs.Outcome.{check};
ghost use Rattle.common.specs.Number.{Number};
ghost use Rattle.extended.specs.Ext.{Td2f, Td2g, Td2kt, Td2ec, Td2joule, Td2iJTC, Td2dvdpct, Td2dpdtcv, Td2dvdtcp, Td2e, Td2fi};

use common::{DC_WATER, Kelvin, KgPerM3, RGAS_WATER, TT, finite_or_nan, over};
use helmholtz::{
    phi_delta_reg3, phi_deltadelta_reg3, phi_deltatau_reg3, phi_reg3, phi_tau_reg3, phi_tautau_reg3,
};
use properties::{delta_of, raw_cp_w, raw_v, tau_of};
use rules::raw_exponential;

// OF, the specific Helmholtz free energy, kJ/kg.
pub fn raw_f(t: Kelvin, d: KgPerM3) -> f64
    ensures { Number (Td2f (check t.0) (check d.0)) result }
{
    let tau = tau_of(t);
    let delta = delta_of(d);
    finite_or_nan(RGAS_WATER * t.0 * phi_reg3(delta, tau))
}

// OG, the specific Gibbs free energy, kJ/kg.
pub fn raw_g(t: Kelvin, d: KgPerM3) -> f64
    ensures { Number (Td2g (check t.0) (check d.0)) result }
{
    let tau = tau_of(t);
    let delta = delta_of(d);
    let phi = phi_reg3(delta, tau);
    let phi_delta = phi_delta_reg3(delta, tau);
    finite_or_nan(RGAS_WATER * t.0 * (phi + delta * phi_delta))
}

// ODVDP, (∂v/∂p)_T, m3/(kg MPa).
pub fn raw_dvdpct(t: Kelvin, d: KgPerM3) -> f64
    ensures { Number (Td2dvdpct (check t.0) (check d.0)) result }
{
    let tau = tau_of(t);
    let delta = delta_of(d);
    let phi_delta = phi_delta_reg3(delta, tau);
    let phi_deltadelta = phi_deltadelta_reg3(delta, tau);
    let below = d.0 * RGAS_WATER * t.0 * (2.0 * phi_delta + delta * phi_deltadelta);
    finite_or_nan(over(over(over(-1000.0 * DC_WATER, d.0), d.0), below))
}

// OKT, the isothermal compressibility, 1/MPa.
pub fn raw_kt(t: Kelvin, d: KgPerM3) -> f64
    ensures { Number (Td2kt (check t.0) (check d.0)) result }
{
    finite_or_nan(-d.0 * raw_dvdpct(t, d))
}

// ODVDT, (∂v/∂T)_p, m3/(kg K).
pub fn raw_dvdtcp(t: Kelvin, d: KgPerM3) -> f64
    ensures { Number (Td2dvdtcp (check t.0) (check d.0)) result }
{
    let tau = tau_of(t);
    let delta = delta_of(d);
    let phi_delta = phi_delta_reg3(delta, tau);
    let phi_deltatau = phi_deltatau_reg3(delta, tau);
    let phi_deltadelta = phi_deltadelta_reg3(delta, tau);
    let d1 = phi_delta - tau * phi_deltatau;
    let d2 = 2.0 * phi_delta + delta * phi_deltadelta;
    finite_or_nan(over(over(over(d1, d2), t.0), d.0))
}

// OEC, the isobaric expansion coefficient, 1/K.
pub fn raw_ec(t: Kelvin, d: KgPerM3) -> f64
    ensures { Number (Td2ec (check t.0) (check d.0)) result }
{
    finite_or_nan(d.0 * raw_dvdtcp(t, d))
}

// ODPDT, (∂p/∂T)_v, MPa/K.
pub fn raw_dpdtcv(t: Kelvin, d: KgPerM3) -> f64
    ensures { Number (Td2dpdtcv (check t.0) (check d.0)) result }
{
    let tau = tau_of(t);
    let delta = delta_of(d);
    let phi_delta = phi_delta_reg3(delta, tau);
    let phi_deltatau = phi_deltatau_reg3(delta, tau);
    finite_or_nan(0.001 * RGAS_WATER * d.0 * delta * (phi_delta - tau * phi_deltatau))
}

// OJTC, the Joule-Thomson coefficient, K/MPa, with a cp of its own.
pub fn raw_joule(t: Kelvin, d: KgPerM3) -> f64
    ensures { Number (Td2joule (check t.0) (check d.0)) result }
{
    let tau = tau_of(t);
    let delta = delta_of(d);
    let v = raw_v(t, d);
    let phi_delta = phi_delta_reg3(delta, tau);
    let phi_deltatau = phi_deltatau_reg3(delta, tau);
    let phi_deltadelta = phi_deltadelta_reg3(delta, tau);
    let phi_tautau = phi_tautau_reg3(delta, tau);
    let d1 = phi_delta - tau * phi_deltatau;
    let d2 = 2.0 * phi_delta + delta * phi_deltadelta;
    let a = delta * d1;
    let cp = RGAS_WATER * (-1.0 * tau * tau * phi_tautau + over(a * a, delta * d2));
    let cex = over(over(d1, d2), t.0);
    finite_or_nan(1000.0 * over(v, cp) * (t.0 * cex - 1.0))
}

// OIJTC, the isothermal throttling coefficient: cp's half of the joint operation.
pub fn raw_iJTC(t: Kelvin, d: KgPerM3) -> f64
    ensures { Number (Td2iJTC (check t.0) (check d.0)) result }
{
    let both = raw_cp_w(t, d);
    finite_or_nan(-both.cp * raw_joule(t, d) / 1000.0)
}

// OE, the specific exergy, kJ/kg.
pub fn raw_e(t: Kelvin, d: KgPerM3) -> f64
    ensures { Number (Td2e (check t.0) (check d.0)) result }
{
    let tau = tau_of(t);
    let delta = delta_of(d);
    let phi = phi_reg3(delta, tau);
    let phi_delta = phi_delta_reg3(delta, tau);
    let phi_tau = phi_tau_reg3(delta, tau);
    finite_or_nan(
        RGAS_WATER * (t.0 * (phi + delta * phi_delta) + (t.0 - TT) * tau * (phi_tau - phi)),
    )
}

// OFI, the fugacity coefficient.
pub fn raw_fi(t: Kelvin, d: KgPerM3) -> f64
    ensures { Number (Td2fi (check t.0) (check d.0)) result }
{
    finite_or_nan(raw_exponential(over(raw_g(t, d) / RGAS_WATER, t.0)))
}
