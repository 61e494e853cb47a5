// Whether a state at T and d has an asked p, h or s: the property is worked there, whoever proposed the state, and its difference from the asked
// one, rounded, may be 1e-6 in the property's unit at most. 15 otherwise.
#![tactic(auto, using(common::proofs::Calls::passed_on, common::proofs::Calls::went_in))]

ghost use Rattle.std.specs.Prelude.{◌≡◌};
ghost use Rattle.common.specs.Answer.{paper};
ghost use Rattle.checks.specs.Checks.{held_to, asked_box, check_p_rule, check_h_rule, check_s_rule};

use common::{KJPerKg, KJPerKgK, Kelvin, KgPerM3, MPa, Refusal, check_Td, is_finite, settle, size};
use properties::{raw_h, raw_s, state_p};

// How far the property may lie from the asked one.
const NEAR: f64 = 0.000001;

// The property that was worked, held to the asked y by their rounded difference.
#[tactic(auto, unfolding(crate::specs::Checks::held_to, std::specs::Prelude::from_bits, common::specs::Decimal::decimal, common::specs::Decimal::scaled))]
fn held(worked: Result<f64, Refusal>, y: f64) -> Result<(), Refusal>
    ensures { paper result ≡ held_to y (paper worked) }
{
    let x = worked?;
    let e = settle(x - y)?;
    if size(e) <= NEAR {
        Ok(())
    } else {
        Err(Refusal::Unfound)
    }
}

// The tests before any step: an asked y that is not finite is refused before T and d are looked at.
fn check_asked(t: Kelvin, d: KgPerM3, y: f64) -> Result<(), Refusal>
    ensures { paper result ≡ asked_box t.0 d.0 y }
{
    if !is_finite(y) {
        return Err(Refusal::NotFinite);
    }
    check_Td(t, d)
}

// The p of the state has to be in its range as well: 4 otherwise.
// Kept: three checks of one test, so that what is asked stands under its unit.
#[tactic(auto, unfolding(crate::specs::Checks::check_p_rule))]
pub fn check_p(t: Kelvin, d: KgPerM3, p: MPa) -> Result<(), Refusal>
    ensures { paper result ≡ check_p_rule t.0 d.0 p.0 }
{
    check_asked(t, d, p.0)?;
    held(state_p(t, d), p.0)
}

#[tactic(auto, unfolding(crate::specs::Checks::check_h_rule))]
pub fn check_h(t: Kelvin, d: KgPerM3, h: KJPerKg) -> Result<(), Refusal>
    ensures { paper result ≡ check_h_rule t.0 d.0 h.0 }
{
    check_asked(t, d, h.0)?;
    held(settle(raw_h(t, d)), h.0)
}

#[tactic(auto, unfolding(crate::specs::Checks::check_s_rule))]
pub fn check_s(t: Kelvin, d: KgPerM3, s: KJPerKgK) -> Result<(), Refusal>
    ensures { paper result ≡ check_s_rule t.0 d.0 s.0 }
{
    check_asked(t, d, s.0)?;
    held(settle(raw_s(t, d)), s.0)
}
