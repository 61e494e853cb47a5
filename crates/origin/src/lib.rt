// Where the volume at (p,T) comes from: the critical point, or the equation of the letter (the Rust's region3_v_pT).
#![tactic(auto)]

ghost use Rattle.std.specs.Prelude.{◌≡◌};
ghost use Rattle.common.specs.Answer.{paper};
ghost use Rattle.origin.specs.Origin.{near, at_critical, lettered_at, origin_at, origin_rule};

use border::check_region3;
use boundary::letter_at;
use common::{Kelvin, MPa, P_TOL, PC_WATER, Refusal, T_TOL, TC_WATER, settle, size};
use record::Origin;

// Whether x is strictly within tol of centre. A distance that is lost is refused.
fn near(x: f64, centre: f64, tol: f64) -> Result<bool, Refusal>
    ensures { paper result ≡ near x centre tol }
{
    let distance = settle(x - centre)?;
    Ok(size(distance) < tol)
}

// Whether T is near the critical point's, and then p.
fn at_critical(p: MPa, t: Kelvin) -> Result<bool, Refusal>
    ensures { paper result ≡ at_critical p.0 t.0 }
{
    Ok(near(t.0, TC_WATER, T_TOL)? && near(p.0, PC_WATER, P_TOL)?)
}

// The letter as an origin.
fn lettered(p: MPa, t: Kelvin) -> Result<Origin, Refusal>
    ensures { paper result ≡ lettered_at p.0 t.0 }
{
    let l = letter_at(p, t)?;
    Ok(Origin::Subregion(l))
}

// The critical point, or the letter, at any p and t: no box is looked at, and a distance from the critical point that is lost is refused.
#[tactic(auto, unfolding(crate::specs::Origin::origin_at))]
pub fn origin_at(p: MPa, t: Kelvin) -> Result<Origin, Refusal>
    ensures { paper result ≡ origin_at p.0 t.0 }
{
    if at_critical(p, t)? {
        return Ok(Origin::Critical);
    }
    lettered(p, t)
}

// Where a (p,T) record and a row of the column run take their volume from: the box and the border with region 2, once, then the origin.
// Kept: boundary's sub_region3_pT is these two steps for a letter; a function handed the second step would be no plainer.
#[tactic(auto, unfolding(crate::specs::Origin::origin_rule))]
pub fn origin_pT(p: MPa, t: Kelvin) -> Result<Origin, Refusal>
    ensures { paper result ≡ origin_rule p.0 t.0 }
{
    check_region3(p, t)?;
    origin_at(p, t)
}
