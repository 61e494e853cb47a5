// From a curve, with what is asked of it, to the place that the check accepts: the start points (r3/region3_pair_ext.rs), the search, the proposal's range,
// the check.
#![tactic(auto, using(common::proofs::Calls::passed_on, common::proofs::Calls::went_in))]

ghost use Rattle.std.specs.Prelude.{◌≡◌};
ghost use Rattle.common.specs.Answer.{paper};
ghost use Rattle.place.specs.AcceptedPlace.{density_at, densities_at, temperatures_at, in_range, check_on, accepted_at, proposed_for, found_on};

use border::{raw_B23_T2p, raw_B23_p2T};
use checks::{check_h, check_p, check_s};
use common::{Kelvin, KgPerM3, MPa, P_RANGE, Refusal, T_RANGE, in_d, in_t, settle};
use secant::{Curve, Proposal, rtsec_h, rtsec_p, rtsec_s};
use volume_at::pT2v_at;

// The places, in K or kg/m3 by the curve, between which a search starts.
#[derive(Clone, Copy, Debug, PartialEq)]
struct Starts {
    first: f64,
    second: f64,
}

// The density of the volume at a pressure, at any p and t.
#[tactic(auto, unfolding(crate::specs::AcceptedPlace::density_at, std::specs::Prelude::from_bits, common::specs::Decimal::whole))]
fn density_at(p: MPa, t: Kelvin) -> Result<f64, Refusal>
    ensures { paper result ≡ density_at p.0 t.0 }
{
    let v = pT2v_at(p, t)?;
    settle(1.0 / v)
}

// On an isotherm: the densities at the border with region 2 and at 100 MPa.
fn densities(t: Kelvin) -> Result<Starts, Refusal>
    ensures { paper result ≡ densities_at t.0 }
{
    let p = settle(raw_B23_T2p(t))?;
    let first = density_at(MPa(p), t)?;
    let second = density_at(MPa(P_RANGE.to), t)?;
    Ok(Starts { first, second })
}

// On an isochore: 623.15 K and the border with region 2 at the asked p.
fn temperatures(p: MPa) -> Result<Starts, Refusal>
    ensures { paper result ≡ temperatures_at p.0 }
{
    let second = settle(raw_B23_p2T(p))?;
    Ok(Starts {
        first: T_RANGE.from,
        second,
    })
}

// The start points, then the search.
// Kept: here and below a match over the closed kind of curves (secant).
#[tactic(auto, unfolding(crate::specs::AcceptedPlace::proposed_for, crate::specs::AcceptedPlace::starts_of))]
fn proposed(curve: Curve) -> Result<Proposal, Refusal>
    ensures { paper result ≡ proposed_for curve }
{
    match curve {
        Curve::Isochore(d, p) => {
            let s = temperatures(p)?;
            rtsec_p(d, p, Kelvin(s.first), Kelvin(s.second))
        }
        Curve::Enthalpy(t, h) => {
            let s = densities(t)?;
            rtsec_h(t, h, KgPerM3(s.first), KgPerM3(s.second))
        }
        Curve::Entropy(t, asked) => {
            let s = densities(t)?;
            rtsec_s(t, asked, KgPerM3(s.first), KgPerM3(s.second))
        }
    }
}

// Whether a place is in the range of what is searched.
fn in_range(curve: Curve, x: f64) -> bool
    ensures { result ≡ in_range curve x }
{
    match curve {
        Curve::Isochore(_, _) => in_t(Kelvin(x)),
        Curve::Enthalpy(_, _) | Curve::Entropy(_, _) => in_d(KgPerM3(x)),
    }
}

// The check at a place.
fn checked(curve: Curve, x: f64) -> Result<(), Refusal>
    ensures { paper result ≡ check_on curve x }
{
    match curve {
        Curve::Isochore(d, p) => check_p(Kelvin(x), d, p),
        Curve::Enthalpy(t, h) => check_h(t, KgPerM3(x), h),
        Curve::Entropy(t, s) => check_s(t, KgPerM3(x), s),
    }
}

// A proposal in its range, then accepted by the check.
#[tactic(auto, unfolding(crate::specs::AcceptedPlace::accepted_at))]
fn accept(curve: Curve, x: f64) -> Result<(), Refusal>
    ensures { paper result ≡ accepted_at curve x }
{
    if !in_range(curve, x) {
        return Err(Refusal::State);
    }
    checked(curve, x)
}

// The place on a curve at which its property is the asked one, and how many trials the search made.
#[tactic(auto, unfolding(crate::specs::AcceptedPlace::found_on))]
pub fn found(curve: Curve) -> Result<Proposal, Refusal>
    ensures { paper result ≡ found_on curve }
{
    let proposal = proposed(curve)?;
    accept(curve, proposal.place)?;
    Ok(proposal)
}
