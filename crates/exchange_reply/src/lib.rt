// The 112 bytes that answer one record, from what was read and its entry's answer: the last 88 are that answer's reply as `answers` has it.
#![tactic(auto)]

ghost use Rattle.std.specs.Prelude.{◌≡◌};
ghost use Rattle.record.specs.Record.{paper_record};
ghost use Rattle.exchange_record.specs.Reading.{read_number};
ghost use Rattle.exchange_reply.specs.Bytes.{asked_bytes, refused_bytes};

use buffer::put_word;
use exchange_record::{Asked, ReadRefusal};
use record::RecordAnswer;
use reply::{put_reply, record_reply};

// What was read, and its entry's reply.
pub fn asked_bytes(q: Asked, a: RecordAnswer) -> [u8; 112]
    ensures { result ≡ asked_bytes q (paper_record a) }
{
    let mut out = [0; 112];
    out[1] = q.pair.into();
    put_word(&mut out, 8, q.a);
    put_word(&mut out, 16, q.b);
    put_reply(&mut out, 24, record_reply(a));
    out
}

// The reader's refusal, and zeros.
pub fn refused_bytes(k: ReadRefusal) -> [u8; 112]
    ensures { result ≡ refused_bytes (read_number k) }
{
    let mut out = [0; 112];
    out[0] = k.into();
    out
}
