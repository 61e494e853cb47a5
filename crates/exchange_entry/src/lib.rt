// The exchange record and the entries: a record answered by its point's own entry (`call`), and a point written where its own entry accepts it (`writing`).
#![tactic(auto)]

ghost use Rattle.std.specs.Prelude.{◌≡◌, Err};
ghost use Rattle.exchange_entry.specs.declared.ExchangeRefusal.TheVariants.{Reader};
ghost use Rattle.exchange_entry.specs.Call.{verdict_number};

use common::Refusal;
use exchange_record::{Pair, ReadRefusal};
use record::Record;

mod call;
mod writing;

pub use call::{answer, ask, verdict_number, verdict_pair};
pub use writing::{write, write_by};

// Why a record has no answer: the reader's refusal, or the entry's, which stands with the pair that was read.
#[derive(Clone, Copy, Debug, PartialEq, Eq)]
pub enum ExchangeRefusal {
    Reader(ReadRefusal),
    Entry(Pair, Refusal),
}

impl From<ReadRefusal> for ExchangeRefusal {
    ghost from_gives = { λ k r. r ≡ Reader k };

    fn from(k: ReadRefusal) -> ExchangeRefusal {
        ExchangeRefusal::Reader(k)
    }
}

impl From<ExchangeRefusal> for u8 {
    ghost from_gives = { λ k r. r ≡ verdict_number (Err k) };

    fn from(k: ExchangeRefusal) -> u8 {
        match k {
            ExchangeRefusal::Reader(j) => j.into(),
            ExchangeRefusal::Entry(_, j) => j.into(),
        }
    }
}

// The answer to a record: all +0.0 where it is refused.
// Kept: no Result, since the caller's record goes in by value and comes back zeroed on a refusal, a rule of the project (decision 28).
#[derive(Clone, Copy, Debug, PartialEq)]
pub struct ExchangeAnswer {
    pub verdict: Result<Pair, ExchangeRefusal>,
    pub record: Record,
}
