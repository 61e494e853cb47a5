// The bytes that answer one record: the reader's refusal, or what its point's own entry answers.
ghost use Rattle.exchange.specs.Reply.{Replied};

use exchange_entry::ask;
use exchange_record::read;
use exchange_reply::{asked_bytes, refused_bytes};
use record::Record;

pub fn reply(s: &[u8]) -> [u8; 112]
    ensures { Replied s.now result }
{
    match read(s) {
        Ok(q) => asked_bytes(q, ask(Record::default(), q.into())),
        Err(k) => refused_bytes(k),
    }
}
