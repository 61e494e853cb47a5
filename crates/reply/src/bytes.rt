// The 88 bytes of a reply.
ghost use Rattle.std.specs.Prelude.{◌≡◌};
ghost use Rattle.buffer.specs.Bytes.{placed};
ghost use Rattle.reply.specs.Bytes.{reply_bytes};

use crate::Reply;
use buffer::{put_bytes, put_float};

impl From<Reply> for [u8; 88] {
    ghost from_gives = { λ r bytes. bytes ≡ reply_bytes r };

    fn from(r: Reply) -> [u8; 88] {
        let mut bytes = [0; 88];
        bytes[0] = r.refusal;
        bytes[1] = r.letter;
        put_bytes(&mut bytes, 4, &r.beside.to_le_bytes());
        for (k, x) in r.numbers.iter().enumerate() {
            put_float(&mut bytes, 8 + 8 * k, *x);
        }
        bytes
    }
}

// The bytes of a reply from an index on, where all of them lie in the page.
// Kept: bytes with an index, and no Vec that they are pushed to: a reply has fixed bytes in a page of fixed memory.
pub fn put_reply(out: &mut [u8], at: usize, r: Reply)
    ensures { out.new ≡ placed out.old at (reply_bytes r) }
{
    put_bytes(out, at, &<[u8; 88]>::from(r));
}
