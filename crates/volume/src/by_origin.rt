// The volume by its origin, at any p and t: with its density, as a record and a row of the column run take it, or alone.
ghost use Rattle.std.specs.Prelude.{◌≡◌};
ghost use Rattle.common.specs.Outcome.{check};
ghost use Rattle.common.specs.Answer.{paper};
ghost use Rattle.volume.specs.State.{state_of, state_by, volume_from};

use crate::State;
use crate::region3_v_subregion_pT::{equation, volume_by};
use common::{DC_WATER, Kelvin, KgPerM3, M3PerKg, MPa, Refusal, settle};
use record::{Origin, density};

// A volume with its density.
fn found(origin: Origin, volume: M3PerKg) -> Result<State, Refusal>
    ensures { paper result ≡ state_of origin (check volume.0) }
{
    let d = density(volume)?;
    Ok(State {
        origin,
        volume,
        density: KgPerM3(d),
    })
}

// The volume in m3/kg, raw. It stands apart, so that what asks for it is short enough to go where it is called; p and t are bare in here, where
// a struct of one number would cost the column run an instruction or two a row.
#[tactic(auto, unfolding(crate::specs::State::volume_from, crate::specs::Equation::volume_at, std::specs::Prelude::from_bits, common::specs::Decimal::whole))]
fn raw_from(o: Origin, p: f64, t: f64) -> f64
    ensures { check result ≡ volume_from o p t }
{
    match o {
        Origin::Subregion(l) => volume_by(equation(l), l, p, t),
        Origin::Critical => 1.0 / DC_WATER,
    }
}

// The volume with its density.
#[tactic(auto, unfolding(crate::specs::State::state_by, crate::specs::State::volume_from))]
pub fn found_by(o: Origin, p: MPa, t: Kelvin) -> Result<State, Refusal>
    ensures { paper result ≡ state_by o p.0 t.0 }
{
    found(o, M3PerKg(raw_from(o, p.0, t.0)))
}

// The volume alone, whose density is not looked at.
pub fn volume_from(o: Origin, p: MPa, t: Kelvin) -> Result<f64, Refusal>
    ensures { paper result ≡ volume_from o p.0 t.0 }
{
    settle(raw_from(o, p.0, t.0))
}
