// The records of the four pairs. Each call tests its box once, finds T, v and d, or is refused, and has the record of that state worked.
ghost use Rattle.std.specs.Prelude.{◌≡◌};
ghost use Rattle.common.specs.Answer.{paper};
ghost use Rattle.record.specs.Record.{report, paper_record};
ghost use Rattle.region3.specs.Entries.{record_of, pT_rule, ph_rule, ps_rule, hs_rule};

use backward::{Tvd, found_ph, found_ps, hs2p_reg3};
use common::{KJPerKg, KJPerKgK, Kelvin, MPa, Refusal, check_ph, check_ps};
use record::{Record, RecordAnswer, refuse};
use td_record::{Pressure, work_record};
use volume_at::found_pT;

// The record of a state whose T, v and d were found, or refused.
// Kept: a match and no `?`, since the answer is no Result: the caller's record goes in by value and comes back zeroed on a refusal (decision 28).
fn record_of(given: Record, found: Result<Tvd, Refusal>, pressure: Pressure) -> RecordAnswer
    ensures { paper_record result ≡ report (record_of (paper found) pressure) }
{
    match found {
        Ok(tvd) => work_record(given, tvd.t, tvd.d, tvd.v, pressure),
        Err(k) => refuse(given, k),
    }
}

// Kept: a match in each of the four calls, for the reason at `record_of`: `?` would need a private function more for each, and no arm less at `record_of`.
#[tactic(auto, unfolding(crate::specs::Entries::pT_rule))]
pub fn pT_reg3(given: Record, p: MPa, t: Kelvin) -> RecordAnswer
    ensures { paper_record result ≡ report (pT_rule p.0 t.0) }
{
    match found_pT(p, t) {
        Ok(state) => work_record(given, t, state.density, state.volume, Pressure::Worked),
        Err(k) => refuse(given, k),
    }
}

// Kept: (p,h) and (p,s) alike, each a name of the Rust's with its own pair of units.
#[tactic(auto, unfolding(crate::specs::Entries::ph_rule))]
pub fn ph_reg3(given: Record, p: MPa, h: KJPerKg) -> RecordAnswer
    ensures { paper_record result ≡ report (ph_rule p.0 h.0) }
{
    match check_ph(p, h) {
        Ok(()) => record_of(given, found_ph(p, h), Pressure::Worked),
        Err(k) => refuse(given, k),
    }
}

#[tactic(auto, unfolding(crate::specs::Entries::ps_rule))]
pub fn ps_reg3(given: Record, p: MPa, s: KJPerKgK) -> RecordAnswer
    ensures { paper_record result ≡ report (ps_rule p.0 s.0) }
{
    match check_ps(p, s) {
        Ok(()) => record_of(given, found_ps(p, s), Pressure::Worked),
        Err(k) => refuse(given, k),
    }
}

// p by (h,s), then T and v by (p,h): the side of s gives p, and that of h gives T and v.
#[tactic(auto, unfolding(crate::specs::Entries::hs_rule))]
pub fn hs_reg3(given: Record, h: KJPerKg, s: KJPerKgK) -> RecordAnswer
    ensures { paper_record result ≡ report (hs_rule h.0 s.0) }
{
    match hs2p_reg3(h, s) {
        Ok(p) => {
            let p = MPa(p);
            record_of(given, found_ph(p, h), Pressure::Found(p))
        }
        Err(k) => refuse(given, k),
    }
}
