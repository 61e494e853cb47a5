// From rows of 24 bytes to replies of 88.
ghost use Rattle.std.specs.Prelude.{◌≡◌, ◌+◌, ◌<◌, ◌^◌};
ghost use Rattle.std.proofs.lemmas.List.Edits.{sets};
ghost use Rattle.entries.specs.Rows.{reply_at, rows_in, replies_to};

use crate::answer;
use buffer::{byte_at, float_at, int_at};
use entry_numbers::entry_of;
use reply::{Reply, put_reply};

// Kept: an index and its bound, and no row of `chunks_exact`: the replies of a page need the index, so both would stand in the loop.
#[tactic(auto, unfolding(crate::specs::Rows::reply_at))]
fn reply_at(s: &[u8], at: usize) -> Reply
    requires { at + 24 < 2 ^ 64 }
    ensures { result ≡ reply_at s.now at }
{
    answer(
        entry_of(byte_at(s, at)),
        int_at(s, at + 4),
        float_at(s, at + 8),
        float_at(s, at + 16),
    )
}

// Answers the whole rows of a page, as far as their replies have room, and says how many.
// Kept: an index, for of a page that was written by `chunks_exact_mut` a proof knows the length alone.
pub fn answer_rows(rows: &[u8], replies: &mut [u8]) -> usize
    ensures value { result ≡ rows_in rows.now replies.old }
    ensures replies_after { replies.new ≡ sets replies.old 0 (replies_to rows.now result) }
{
    let n = (rows.len() / 24).min(replies.len() / 88);
    for i in 0..n {
        put_reply(replies, 88 * i, reply_at(rows, 24 * i));
    }
    n
}
