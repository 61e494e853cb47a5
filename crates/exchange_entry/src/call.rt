// From a point to its entry, and from a record to both.
ghost use Rattle.std.specs.Prelude.{◌≡◌};
ghost use Rattle.common.specs.Outcome.{value};
ghost use Rattle.common.specs.Answer.{paper};
ghost use Rattle.record.specs.Record.{report, paper_record};
ghost use Rattle.exchange_entry.specs.Call.{entry_rule, exchange_of, paper_exchange, heard, verdict_number, verdict_pair, Exchanged};

use crate::{ExchangeAnswer, ExchangeRefusal};
use common::Refusal;
use exchange_record::{Asked, Pair, read};
use exchange_writer::Point;
use record::{Record, RecordAnswer};
use region3::{hs_reg3, pT_reg3, ph_reg3, ps_reg3};
use td_record::Td_reg3;

// The point's own entry.
pub fn ask(given: Record, x: Point) -> RecordAnswer
    ensures { paper_record result ≡ report (entry_rule x) }
{
    match x {
        Point::PT(p, t) => pT_reg3(given, p, t),
        Point::TD(t, d) => Td_reg3(given, t, d),
        Point::PH(p, h) => ph_reg3(given, p, h),
        Point::PS(p, s) => ps_reg3(given, p, s),
        Point::HS(h, s) => hs_reg3(given, h, s),
    }
}

// An entry's verdict, with the pair that was read.
fn judged(pair: Pair, v: Result<(), Refusal>) -> Result<Pair, ExchangeRefusal>
    ensures { heard result ≡ (value pair, paper v) }
{
    match v {
        Ok(()) => Ok(pair),
        Err(k) => Err(ExchangeRefusal::Entry(pair, k)),
    }
}

// The pair's own answer, with the pair.
fn asked(given: Record, q: Asked) -> ExchangeAnswer
    ensures { paper_exchange result ≡ exchange_of (value q) }
{
    let a = ask(given, q.into());
    ExchangeAnswer {
        verdict: judged(q.pair, a.verdict),
        record: a.record,
    }
}

// The record's own refusal, or its pair's answer.
pub fn answer(given: Record, s: &[u8]) -> ExchangeAnswer
    ensures { Exchanged s.now (paper_exchange result) }
{
    match read(s) {
        Ok(q) => asked(given, q),
        Err(k) => ExchangeAnswer {
            verdict: Err(k.into()),
            record: Record::default(),
        },
    }
}

// The number of a verdict, 0 where it is accepted.
// Kept: beside exchange_writer's `write_number` and common's `refusal_byte`, each with a promise by its own refusals' definition: one generic over
// `K: Into<u8>` could promise only what the `from_gives` of any K says, and each of the three would still have to say which number that is.
pub fn verdict_number(v: Result<Pair, ExchangeRefusal>) -> u8
    ensures { result ≡ verdict_number v }
{
    match v {
        Ok(_) => 0,
        Err(k) => k.into(),
    }
}

// The byte of the pair that was read, 0 where none was.
pub fn verdict_pair(v: Result<Pair, ExchangeRefusal>) -> u8
    ensures { result ≡ verdict_pair v }
{
    match v {
        Ok(pair) | Err(ExchangeRefusal::Entry(pair, _)) => pair.into(),
        Err(ExchangeRefusal::Reader(_)) => 0,
    }
}
