// The caller's record refused, the fields of a record in order, and the byte of an origin.
ghost use Rattle.std.specs.Prelude.{◌≡◌};
ghost use Rattle.common.specs.Outcome.{refused};
ghost use Rattle.common.specs.Answer.{number_of};
ghost use Rattle.record.specs.Record.{report, paper_record, fields_of, byte_of};

use crate::{Origin, Record, RecordAnswer};
use common::Refusal;

// The caller's record with +0.0 in every field, whatever stood there.
// Kept: it takes the record that it does not read, since a caller's record goes in by value and comes back zeroed (decision 28).
pub fn refuse(_given: Record, k: Refusal) -> RecordAnswer
    ensures { paper_record result ≡ report (refused (number_of k)) }
{
    RecordAnswer {
        verdict: Err(k),
        record: Record::default(),
    }
}

// The ten numbers of a record, in its order.
impl From<Record> for [f64; 10] {
    ghost from_gives = { λ r xs. xs ≡ fields_of r };

    fn from(r: Record) -> [f64; 10] {
        [r.T, r.d, r.v, r.p, r.h, r.s, r.u, r.cv, r.cp, r.w]
    }
}

// The byte of an origin in a column: a letter's, or 0 at the critical point.
impl From<Origin> for u8 {
    ghost from_gives = { λ o r. r ≡ byte_of o };

    fn from(o: Origin) -> u8 {
        match o {
            Origin::Subregion(l) => l.into(),
            Origin::Critical => 0,
        }
    }
}
