// The whole record, field by field to its end, and then the pair.
ghost use Rattle.std.specs.Prelude.{◌≡◌};
ghost use Rattle.exchange_record.specs.Reading.{paper_read, Means};
ghost use Rattle.exchange_record.specs.Walk.{asked_by, finished};

use crate::field::step;
use crate::{Asked, Known, Pair, ReadRefusal, Seen};

// The pair of two known fields.
#[tactic(auto, unfolding(crate::specs::Walk::asked_by))]
fn paired(x: Known, y: Known) -> Result<Asked, ReadRefusal>
    ensures { paper_read result ≡ asked_by x.tag x.bits y.tag y.bits }
{
    let pair = match (x.tag, y.tag) {
        (1, 2) => Pair::PT,
        (2, 3) => Pair::TD,
        (1, 4) => Pair::PH,
        (1, 5) => Pair::PS,
        (4, 5) => Pair::HS,
        _ => return Err(ReadRefusal::NotAPair),
    };
    Ok(Asked {
        pair,
        a: x.bits,
        b: y.bits,
    })
}

// At the end of the record: exactly two known fields that are a pair.
fn finish(seen: Seen) -> Result<Asked, ReadRefusal>
    ensures { paper_read result ≡ finished seen }
{
    match seen {
        Seen::Two(x, y) => paired(x, y),
        _ => Err(ReadRefusal::NotAPair),
    }
}

// Each field is looked at once, and what is skipped is stepped over.
pub fn read(s: &[u8]) -> Result<Asked, ReadRefusal>
    ensures { Means s.now (paper_read result) }
{
    let mut rest = s;
    let mut seen = Seen::Nothing;
    // Kept: a while, since each field is as long as it says.
    while !rest.is_empty() {
        rest = step(rest, &mut seen)?;
    }
    finish(seen)
}
