// The shapes of a reply: a refusal, one number, a letter, a record.
ghost use Rattle.std.specs.Prelude.{◌≡◌};
ghost use Rattle.common.specs.Outcome.{value};
ghost use Rattle.common.specs.Answer.{paper};
ghost use Rattle.record.specs.Record.{paper_record};
ghost use Rattle.reply.specs.Shape.{refused_by, number_reply, letter_reply, record_reply};

use crate::Reply;
use common::{Refusal, refusal_byte};
use record::RecordAnswer;
use subregion::{Letter, letter_byte};

// A refusal's number, and nothing else.
pub fn refused(k: u8) -> Reply
    ensures { result ≡ refused_by k }
{
    Reply {
        refusal: k,
        letter: 0,
        beside: 0,
        numbers: [0.0; 10],
    }
}

// One number, in the first place.
pub fn first(x: f64) -> Reply
    ensures { result ≡ number_reply (value x) }
{
    let mut numbers = [0.0; 10];
    numbers[0] = x;
    Reply {
        numbers,
        ..refused(0)
    }
}

pub fn number_reply(a: Result<f64, Refusal>) -> Reply
    ensures { result ≡ number_reply (paper a) }
{
    match a {
        Ok(x) => first(x),
        Err(k) => refused(k.into()),
    }
}

pub fn letter_reply(c: Result<Letter, Refusal>) -> Reply
    ensures { result ≡ letter_reply (paper c) }
{
    Reply {
        letter: letter_byte(c),
        ..refused(refusal_byte(c))
    }
}

pub fn record_reply(a: RecordAnswer) -> Reply
    ensures { result ≡ record_reply (paper_record a) }
{
    Reply {
        numbers: a.record.into(),
        ..refused(refusal_byte(a.verdict))
    }
}
