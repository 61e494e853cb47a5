// One field: what becomes of it, and the bytes after it.
ghost use Rattle.std.specs.Prelude.{◌≡◌, ◌&&◌, ltb, leb, ◌+◌, ◌*◌, ◌<◌, length, MatchResult};
ghost use Rattle.exchange_record.specs.Grammar.{word, fate_of};
ghost use Rattle.exchange_record.specs.Reading.{read_number};
ghost use Rattle.exchange_record.specs.Walk.{paper_fate, Passed, Stops};

use crate::{Fate, Known, ReadRefusal, Seen};

// The tags of p, T, d, h, s.
fn known(tag: u8) -> bool
    ensures { result ≡ (ltb 0 tag && leb tag 5) }
{
    (1..=5).contains(&tag)
}

#[tactic(auto, unfolding(crate::specs::Grammar::fate_of))]
fn judge(last: u8, tag: u8, size: usize) -> Result<Fate, ReadRefusal>
    ensures { paper_fate result ≡ fate_of last tag size }
{
    if 128 <= tag {
        return Ok(Fate::Skipped);
    }
    if !known(tag) {
        return Err(ReadRefusal::UnknownTag);
    }
    if size != 8 {
        return Err(ReadRefusal::WrongLength);
    }
    if tag <= last {
        return Err(ReadRefusal::OutOfOrder);
    }
    Ok(Fate::Taken)
}

// The length that a field's two bytes say, the high one first.
fn said(high: u8, low: u8) -> usize
    ensures { result ≡ 256 * high + low }
{
    usize::from(u16::from_be_bytes([high, low]))
}

// The eight bytes of a number, the high byte first.
fn word_of(b: &[u8]) -> u64
    requires { length b.now ≡ 8 }
    ensures { result ≡ word b.now }
{
    u64::from_be_bytes(<[u8; 8]>::try_from(b).unwrap())
}

// The first field is skipped, taken, or stops the reader: what was seen with it, and the bytes after it. Its length is held against the bytes that are left
// before they are gone by.
// Kept: what was seen is changed in its place: handed on by value it would be copied at each field that is skipped (docs/DESIGN-PASS.md has the times).
pub fn step<'a>(s: &'a [u8], seen: &mut Seen) -> Result<&'a [u8], ReadRefusal>
    requires { 0 < length s.now }
    ensures { MatchResult result (λ rest. Passed s.now seen.old seen.new rest.now) (λ k. Stops s.now seen.old (read_number k)) }
{
    let [tag, high, low, rest @ ..] = s else {
        return Err(ReadRefusal::PastEnd);
    };
    let size = said(*high, *low);
    let Some((body, rest)) = rest.split_at_checked(size) else {
        return Err(ReadRefusal::PastEnd);
    };
    match judge(seen.last(), *tag, size)? {
        Fate::Skipped => {}
        Fate::Taken => {
            *seen = seen.with(Known {
                tag: *tag,
                bits: word_of(body),
            });
        }
    }
    Ok(rest)
}
