// The property record at a temperature and a density (`Td_reg3`), and at a state that another pair has found (`work_record`). A record is made
// in one place, `worked_fields`; the caller's own goes in by value, and comes back with every field replaced, or zeroed by `refuse`.
#![tactic(auto, using(common::proofs::Calls::passed_on, common::proofs::Calls::went_in))]

ghost use Rattle.std.specs.Prelude.{◌≡◌};
ghost use Rattle.common.specs.Outcome.{check};
ghost use Rattle.common.specs.Answer.{paper};
ghost use Rattle.record.specs.Record.{report, paper_record};
ghost use Rattle.td_record.specs.Steps.{pressure_from, record_with, record_steps, record_rule};
ghost use Rattle.td_record.specs.Complete.{complete};

use common::{Kelvin, KgPerM3, M3PerKg, MPa, Refusal, check_Td, settle};
use properties::{RawCpW, lost_or, raw_cp_w, raw_cv, raw_h, raw_s, raw_u, raw_v, state_p};
use record::{Record, RecordAnswer, refuse};

// Where a record's p comes from: worked from T and d and range-tested, or found before.
// Kept: no Option<MPa>, whose None would not say that p is worked then.
#[derive(Clone, Copy)]
pub enum Pressure {
    Worked,
    Found(MPa),
}

fn pressure_of(t: Kelvin, d: KgPerM3, pressure: Pressure) -> Result<f64, Refusal>
    ensures { paper result ≡ pressure_from pressure (check t.0) (check d.0) }
{
    match pressure {
        Pressure::Worked => state_p(t, d),
        Pressure::Found(p) => settle(p.0),
    }
}

// Every field worked, lost or not; cp and w are those that were asked for together, whatever they are.
fn worked_fields(t: Kelvin, d: KgPerM3, v: M3PerKg, p: MPa, both: RawCpW) -> Record
    ensures { record_with t.0 d.0 v.0 p.0 (check both.cp) (check both.w) ≡ complete result }
{
    Record {
        T: t.0,
        d: d.0,
        v: v.0,
        p: p.0,
        h: raw_h(t, d),
        s: raw_s(t, d),
        u: raw_u(t, d),
        cv: raw_cv(t, d),
        cp: both.cp,
        w: both.w,
    }
}

// The record, or 5 where one of its numbers after p is lost.
// Kept: nested, in the order of the steps: a loop over an array of the six would be as long, with an invariant beside it.
fn completed(r: Record) -> Result<Record, Refusal>
    ensures { paper result ≡ complete r }
{
    settle(lost_or(
        r.h,
        lost_or(r.s, lost_or(r.u, lost_or(r.cv, lost_or(r.cp, r.w)))),
    ))?;
    Ok(r)
}

// The record of a state that is known by T, d and v: (p,T), (p,h) and (p,s) find v and have p worked, (h,s) finds p too.
// Kept: T, d and v side by side, each under its unit, by the Rust's names: a struct of the three would be made for one call and taken apart in it.
#[tactic(auto, unfolding(crate::specs::Steps::record_steps))]
fn at_state(t: Kelvin, d: KgPerM3, v: M3PerKg, pressure: Pressure) -> Result<Record, Refusal>
    ensures { paper result ≡ record_steps t.0 d.0 v.0 pressure }
{
    settle(v.0)?;
    let p = pressure_of(t, d, pressure)?;
    completed(worked_fields(t, d, v, MPa(p), raw_cp_w(t, d)))
}

#[tactic(auto, unfolding(crate::specs::Steps::record_rule))]
fn at_Td(t: Kelvin, d: KgPerM3) -> Result<Record, Refusal>
    ensures { paper result ≡ record_rule t.0 d.0 }
{
    check_Td(t, d)?;
    at_state(t, d, M3PerKg(raw_v(t, d)), Pressure::Worked)
}

// A record in the place of the caller's own. Kept: a match, since the answer is no Result (the caller's record comes back zeroed, decision 28).
fn told(given: Record, r: Result<Record, Refusal>) -> RecordAnswer
    ensures { paper_record result ≡ report (paper r) }
{
    match r {
        Ok(record) => RecordAnswer {
            verdict: Ok(()),
            record,
        },
        Err(k) => refuse(given, k),
    }
}

pub fn work_record(
    given: Record,
    t: Kelvin,
    d: KgPerM3,
    v: M3PerKg,
    pressure: Pressure,
) -> RecordAnswer
    ensures { paper_record result ≡ report (record_steps t.0 d.0 v.0 pressure) }
{
    told(given, at_state(t, d, v, pressure))
}

// The record at a temperature and a density.
pub fn Td_reg3(given: Record, t: Kelvin, d: KgPerM3) -> RecordAnswer
    ensures { paper_record result ≡ report (record_rule t.0 d.0) }
{
    told(given, at_Td(t, d))
}
