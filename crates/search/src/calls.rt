// The calls: the box, then what is found, then for three of them the record there.
ghost use Rattle.std.specs.Prelude.{◌≡◌};
ghost use Rattle.common.specs.Outcome.{refused, then};
ghost use Rattle.common.specs.Answer.{number_of, paper};
ghost use Rattle.record.specs.Record.{paper_record};
ghost use Rattle.search.specs.Calls.{pv_box, Th_box, Ts_box, pv2T_reg3_rule, Th2d_reg3_rule, Ts2d_reg3_rule, pv_rule, Th_rule, Ts_rule};
ghost use Rattle.search.specs.Calls.{record_found, record_on, record_along, with_trials, paper_searched, report_searched};

use crate::SearchedRecord;
use common::{
    H_RANGE, KJPerKg, KJPerKgK, Kelvin, KgPerM3, M3PerKg, MPa, Refusal, S_RANGE, T_RANGE,
    check_pair, in_d, in_p, is_finite,
};
use place::found;
use record::{Record, RecordAnswer, refuse};
use secant::{Curve, Proposal};
use td_record::{Pressure, work_record};

// The checks of the three pairs. A volume is held to the range of its density, which is worked for that: 1/v of a v next to 0 is outside.
pub fn check_pv(p: MPa, v: M3PerKg) -> Result<(), Refusal>
    ensures { paper result ≡ pv_box p.0 v.0 }
{
    if !is_finite(p.0) || !is_finite(v.0) {
        return Err(Refusal::NotFinite);
    }
    if !in_p(p) {
        return Err(Refusal::First);
    }
    if !in_d(KgPerM3(1.0 / v.0)) {
        return Err(Refusal::Second);
    }
    Ok(())
}

pub fn check_Th(t: Kelvin, h: KJPerKg) -> Result<(), Refusal>
    ensures { paper result ≡ Th_box t.0 h.0 }
{
    check_pair(t.0, T_RANGE, h.0, H_RANGE)
}

pub fn check_Ts(t: Kelvin, s: KJPerKgK) -> Result<(), Refusal>
    ensures { paper result ≡ Ts_box t.0 s.0 }
{
    check_pair(t.0, T_RANGE, s.0, S_RANGE)
}

// The T at p and v.
// Kept: three calls by one search, since each is a name of the Rust with its own pair of units.
pub fn pv2T_reg3(p: MPa, v: M3PerKg) -> Result<Proposal, Refusal>
    ensures { paper result ≡ pv2T_reg3_rule p.0 v.0 }
{
    check_pv(p, v)?;
    found(Curve::Isochore(KgPerM3(1.0 / v.0), p))
}

// The d at T and h.
pub fn Th2d_reg3(t: Kelvin, h: KJPerKg) -> Result<Proposal, Refusal>
    ensures { paper result ≡ Th2d_reg3_rule t.0 h.0 }
{
    check_Th(t, h)?;
    found(Curve::Enthalpy(t, h))
}

// The d at T and s.
pub fn Ts2d_reg3(t: Kelvin, s: KJPerKgK) -> Result<Proposal, Refusal>
    ensures { paper result ≡ Ts2d_reg3_rule t.0 s.0 }
{
    check_Ts(t, s)?;
    found(Curve::Entropy(t, s))
}

// An answer for a record with the trials that led to its state: none where it is refused.
fn counted(a: RecordAnswer, trials: u32) -> SearchedRecord
    ensures { paper_searched result ≡ with_trials trials (paper_record a) }
{
    SearchedRecord {
        verdict: a.verdict,
        record: a.record,
        trials: match a.verdict {
            Ok(()) => trials,
            Err(_) => 0,
        },
    }
}

// The record at a T and a d that were found, with the trials. Its v is 1/d.
fn record_at(given: Record, t: Kelvin, d: KgPerM3, trials: u32) -> SearchedRecord
    ensures { paper_searched result ≡ report_searched (record_found (record_on t.0 d.0) trials) }
{
    counted(
        work_record(given, t, d, M3PerKg(1.0 / d.0), Pressure::Worked),
        trials,
    )
}

fn refused_record(given: Record, k: Refusal) -> SearchedRecord
    ensures { paper_searched result ≡ report_searched (refused (number_of k)) }
{
    counted(refuse(given, k), 0)
}

// The record at (p,v). Its v is 1/d, d being 1/v: not always the v that was asked.
// Kept: a match here and in `on_isotherm`, since the answer is no Result (decision 28); each has another number found, T here and d there.
pub fn pv_reg3(given: Record, p: MPa, v: M3PerKg) -> SearchedRecord
    ensures { paper_searched result ≡ report_searched (pv_rule p.0 v.0) }
{
    match pv2T_reg3(p, v) {
        Ok(t) => record_at(given, Kelvin(t.place), KgPerM3(1.0 / v.0), t.trials),
        Err(k) => refused_record(given, k),
    }
}

// The record at a T and the d that was found there.
fn on_isotherm(given: Record, t: Kelvin, d: Result<Proposal, Refusal>) -> SearchedRecord
    ensures { paper_searched result ≡ report_searched (then (paper d) (record_along t.0)) }
{
    match d {
        Ok(d) => record_at(given, t, KgPerM3(d.place), d.trials),
        Err(k) => refused_record(given, k),
    }
}

// The record at (T,h).
pub fn Th_reg3(given: Record, t: Kelvin, h: KJPerKg) -> SearchedRecord
    ensures { paper_searched result ≡ report_searched (Th_rule t.0 h.0) }
{
    on_isotherm(given, t, Th2d_reg3(t, h))
}

// The record at (T,s).
pub fn Ts_reg3(given: Record, t: Kelvin, s: KJPerKgK) -> SearchedRecord
    ensures { paper_searched result ≡ report_searched (Ts_rule t.0 s.0) }
{
    on_isotherm(given, t, Ts2d_reg3(t, s))
}
