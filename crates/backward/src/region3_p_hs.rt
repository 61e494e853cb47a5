// Pressure from (h,s): S04rev.
// Kept: alike to the calls of region3_Tv_phps, for the reason that stands there.
ghost use Rattle.std.specs.Prelude.{◌≡◌};
ghost use Rattle.common.specs.Answer.{paper};
ghost use Rattle.backward.specs.Backward.{hs2p_reg3_rule};

use crate::region3_Tv_phps::side_s;
use backward_equations::raw_hs2p;
use common::{KJPerKg, KJPerKgK, MPa, Refusal, check_hs};
use record::settle_p;

// The pressure in MPa from (h,s).
#[tactic(auto, unfolding(crate::specs::Backward::hs2p_reg3_rule))]
pub fn hs2p_reg3(h: KJPerKg, s: KJPerKgK) -> Result<f64, Refusal>
    ensures { paper result ≡ hs2p_reg3_rule h.0 s.0 }
{
    check_hs(h, s)?;
    settle_p(MPa(raw_hs2p(side_s(s), h, s)))
}
