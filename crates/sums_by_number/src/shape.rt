// What a sum of two or four numbers came to, in its shape. One of a single number has that of a call for one number.
ghost use Rattle.std.specs.Prelude.{◌≡◌};
ghost use Rattle.common.specs.Answer.{paper};
ghost use Rattle.sums_by_number.specs.Shape.{two_reply, four_reply};

use common::Refusal;
use joint::{Four, Pair};
use reply::{Reply, refused};

pub fn two_numbers(a: Result<Pair, Refusal>) -> Reply
    ensures { result ≡ two_reply (paper a) }
{
    match a {
        Ok(p) => Reply {
            numbers: [p.first, p.second, 0.0, 0.0, 0.0, 0.0, 0.0, 0.0, 0.0, 0.0],
            ..refused(0)
        },
        Err(k) => refused(k.into()),
    }
}

// Kept: apart from `two_numbers`, since each names the numbers of its own struct in their order.
pub fn four_numbers(a: Result<Four, Refusal>) -> Reply
    ensures { result ≡ four_reply (paper a) }
{
    match a {
        Ok(p) => Reply {
            numbers: [p.i, p.ii, p.ij, p.jj, 0.0, 0.0, 0.0, 0.0, 0.0, 0.0],
            ..refused(0)
        },
        Err(k) => refused(k.into()),
    }
}
