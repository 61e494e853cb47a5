// The properties from T and d: R7-97(2012), table 31. First the reduced variables, then the eight properties, each raw: its number, or a NaN
// where a step of it is lost; cp and w come together. Last the p of a state, which is range-tested.
// Kept: T and d are two parameters of each call, as in the Rust and in table 31, each with its unit.
ghost use Rattle.std.specs.Prelude.{◌≡◌};
ghost use Rattle.common.specs.Outcome.{check};
ghost use Rattle.common.specs.Answer.{paper};
ghost use Rattle.common.specs.Number.{Number};
ghost use Rattle.properties.specs.Td.{reduced_density, inverse_temperature, Td2v, Td2p, Td2h, Td2s, Td2u, Td2cv, cp_over, w_over, state_pressure};
ghost use Rattle.properties.specs.Together.{checked, Td2cp_w};

use crate::RawCpW;
use common::{DC_WATER, Kelvin, KgPerM3, MPa, RGAS_WATER, Refusal, TC_WATER, finite_or_nan, over};
use helmholtz::{
    Slopes, phi_delta_reg3, phi_tau_reg3, phi_tautau_reg3, polys_0_j_powi_reg3,
    polys_i_ii_ij_jj_powi_reg3, polys_i_j_powi_reg3,
};
use inverses::raw_root;
use record::settle_p;

// τ = T*/T
pub fn tau_of(t: Kelvin) -> f64
    ensures { Number (inverse_temperature (check t.0)) result }
{
    finite_or_nan(over(TC_WATER, t.0))
}

// δ = ρ/ρ*
pub fn delta_of(d: KgPerM3) -> f64
    ensures { Number (reduced_density (check d.0)) result }
{
    finite_or_nan(d.0 / DC_WATER)
}

// Specific volume, m3/kg.
pub fn raw_v(t: Kelvin, d: KgPerM3) -> f64
    ensures { Number (Td2v (check t.0) (check d.0)) result }
{
    finite_or_nan(over(1.0, d.0))
}

// Pressure, MPa.
pub fn raw_p(t: Kelvin, d: KgPerM3) -> f64
    ensures { Number (Td2p (check t.0) (check d.0)) result }
{
    let tau = tau_of(t);
    let delta = delta_of(d);
    finite_or_nan(0.001 * d.0 * RGAS_WATER * t.0 * delta * phi_delta_reg3(delta, tau))
}

// Specific internal energy, kJ/kg.
pub fn raw_u(t: Kelvin, d: KgPerM3) -> f64
    ensures { Number (Td2u (check t.0) (check d.0)) result }
{
    let tau = tau_of(t);
    let delta = delta_of(d);
    finite_or_nan(RGAS_WATER * t.0 * tau * phi_tau_reg3(delta, tau))
}

// Specific entropy, kJ/(kg K).
pub fn raw_s(t: Kelvin, d: KgPerM3) -> f64
    ensures { Number (Td2s (check t.0) (check d.0)) result }
{
    let tau = tau_of(t);
    let delta = delta_of(d);
    let joint = polys_0_j_powi_reg3(delta, tau);
    finite_or_nan(RGAS_WATER * (tau * joint.tau - joint.phi))
}

// Specific enthalpy, kJ/kg.
pub fn raw_h(t: Kelvin, d: KgPerM3) -> f64
    ensures { Number (Td2h (check t.0) (check d.0)) result }
{
    let tau = tau_of(t);
    let delta = delta_of(d);
    let joint = polys_i_j_powi_reg3(delta, tau);
    finite_or_nan(RGAS_WATER * t.0 * (tau * joint.tau + delta * joint.delta))
}

// Specific isochoric heat capacity, kJ/(kg K).
pub fn raw_cv(t: Kelvin, d: KgPerM3) -> f64
    ensures { Number (Td2cv (check t.0) (check d.0)) result }
{
    let tau = tau_of(t);
    let delta = delta_of(d);
    finite_or_nan(RGAS_WATER * (-tau * tau * phi_tautau_reg3(delta, tau)))
}

// Specific isobaric heat capacity, kJ/(kg K), over any four sums.
fn cp_over(delta: f64, tau: f64, phi: Slopes) -> f64
    ensures { Number (cp_over (checked phi) (check delta) (check tau)) result }
{
    let a = delta * (phi.delta - tau * phi.deltatau);
    let b = delta * (2.0 * phi.delta + delta * phi.deltadelta);
    finite_or_nan(RGAS_WATER * (-tau * tau * phi.tautau + over(a * a, b)))
}

// Speed of sound, m/s, over any four sums.
fn w_over(t: Kelvin, delta: f64, tau: f64, phi: Slopes) -> f64
    ensures { Number (w_over (check t.0) (checked phi) (check delta) (check tau)) result }
{
    let a = delta * phi.delta - delta * tau * phi.deltatau;
    let below = tau * tau * phi.tautau;
    finite_or_nan(raw_root(
        1000.0
            * RGAS_WATER
            * t.0
            * (2.0 * delta * phi.delta + delta * delta * phi.deltadelta - over(a * a, below)),
    ))
}

// The specific isobaric heat capacity, kJ/(kg K), and the speed of sound, m/s, from one evaluation of the four sums that both need. The two
// have nothing else in common: each squares a number of its own.
pub fn raw_cp_w(t: Kelvin, d: KgPerM3) -> RawCpW
    ensures { Number (Td2cp_w (check t.0) (check d.0)).cp result.cp × Number (Td2cp_w (check t.0) (check d.0)).w result.w }
{
    let tau = tau_of(t);
    let delta = delta_of(d);
    let phi = polys_i_ii_ij_jj_powi_reg3(delta, tau);
    let cp = cp_over(delta, tau, phi);
    let w = w_over(t, delta, tau, phi);
    RawCpW { cp, w }
}

// The p of a state that a call works out, MPa: 4 where it lies outside its range.
pub fn state_p(t: Kelvin, d: KgPerM3) -> Result<f64, Refusal>
    ensures { paper result ≡ state_pressure (check t.0) (check d.0) }
{
    settle_p(MPa(raw_p(t, d)))
}
