// The volume at (p,T) by the subregion it lies in, and on the saturation line (the Rust's region3_v_pT).
#![tactic(auto, using(common::proofs::Calls::passed_on, common::proofs::Calls::went_in))]

ghost use Rattle.std.specs.Prelude.{◌≡◌};
ghost use Rattle.common.specs.Answer.{paper};
ghost use Rattle.volume_at.specs.Volumes.{state_at, pT2v_at, found_rule, pT2v_reg3_rule, pT2v_3subreg_rule, saturated_letter, pT2v_sat_reg3_rule};

use common::{Kelvin, MPa, P_SATURATED, Refusal, T_SATURATED, check_pT, check_pair};
use origin::{origin_at, origin_pT};
use record::Origin;
use subregion::Letter;
use volume::{State, found_by, volume_from};

// A side of the saturation line.
#[derive(Clone, Copy, Debug, PartialEq, Eq)]
pub enum Phase {
    Liquid,
    Steam,
}

// What a (p,T) record is worked from: the volume, its density, and the origin: the letter by whose equation it was found, or the critical point.
#[tactic(auto, unfolding(crate::specs::Volumes::found_rule))]
pub fn found_pT(p: MPa, t: Kelvin) -> Result<State, Refusal>
    ensures { paper result ≡ found_rule p.0 t.0 }
{
    let origin = origin_pT(p, t)?;
    found_by(origin, p, t)
}

// The same with no box and no border.
// Kept: `found_pT` and `pT2v_at` are of this form: each has its own first or last step, and handing it over as a closure would be no plainer.
#[tactic(auto, unfolding(crate::specs::Volumes::state_at))]
fn found_at(p: MPa, t: Kelvin) -> Result<State, Refusal>
    ensures { paper result ≡ state_at p.0 t.0 }
{
    let from = origin_at(p, t)?;
    found_by(from, p, t)
}

// The volume in m3/kg at any p and t: neither the box nor its density is looked at, so that 5 is the one refusal.
#[tactic(auto, unfolding(crate::specs::Volumes::pT2v_at))]
pub fn pT2v_at(p: MPa, t: Kelvin) -> Result<f64, Refusal>
    ensures { paper result ≡ pT2v_at p.0 t.0 }
{
    let origin = origin_at(p, t)?;
    volume_from(origin, p, t)
}

// The volume in m3/kg at (p,T).
#[tactic(auto, unfolding(crate::specs::Volumes::pT2v_reg3_rule))]
pub fn pT2v_reg3(p: MPa, t: Kelvin) -> Result<f64, Refusal>
    ensures { paper result ≡ pT2v_reg3_rule p.0 t.0 }
{
    check_pT(p, t)?;
    let found = found_at(p, t)?;
    Ok(found.volume.0)
}

// The volume by the equation of a letter, inside or outside its own area.
#[tactic(auto, using(crate::proofs::ByLetter::by_letter), unfolding(crate::specs::Volumes::pT2v_3subreg_rule))]
pub fn pT2v_3subreg(p: MPa, t: Kelvin, l: Letter) -> Result<f64, Refusal>
    ensures { paper result ≡ pT2v_3subreg_rule p.0 t.0 l }
{
    check_pT(p, t)?;
    let by_letter = found_by(Origin::Subregion(l), p, t)?;
    Ok(by_letter.volume.0)
}

// The letter on the saturation line.
// Kept: a match over the two phases, by which the definition `saturated_letter` chooses too, with its splits written out as they are printed.
#[tactic(auto, unfolding(std::specs::Prelude::from_bits, common::specs::Decimal::decimal, common::specs::Decimal::scaled))]
fn saturated(x: Phase, p: MPa) -> Letter
    ensures { result ≡ saturated_letter x p.0 }
{
    let p = p.0;
    match x {
        Phase::Liquid => {
            if p < 19.0088 {
                return Letter::C;
            }
            if p < 21.0434 {
                return Letter::S;
            }
            if p < 21.9316 {
                return Letter::U;
            }
            Letter::Y
        }
        Phase::Steam => {
            if p < 20.5 {
                return Letter::T;
            }
            if p < 21.0434 {
                return Letter::R;
            }
            if p < 21.9009 {
                return Letter::X;
            }
            Letter::Z
        }
    }
}

// The volume on the saturation line, with t as given.
pub fn pT2v_sat_reg3(p: MPa, t: Kelvin, x: Phase) -> Result<f64, Refusal>
    ensures { paper result ≡ pT2v_sat_reg3_rule p.0 t.0 x }
{
    check_pair(p.0, P_SATURATED, t.0, T_SATURATED)?;
    let on_line = found_by(Origin::Subregion(saturated(x, p)), p, t)?;
    Ok(on_line.volume.0)
}
