// What the entries add to the shapes of a reply: a row of the column run, cp and w together, what a search found with its trials.
ghost use Rattle.std.specs.Prelude.{◌≡◌};
ghost use Rattle.common.specs.Answer.{paper};
ghost use Rattle.by_number.specs.Together.{paper_cp_w};
ghost use Rattle.search.specs.Calls.{paper_searched};
ghost use Rattle.entries.specs.Named.{row_reply, cp_w_reply, found_reply, searched_reply};

use by_number::CpW;
use column_row::Line;
use common::{Refusal, refusal_byte};
use reply::{Reply, first, number_reply, refused};
use search::SearchedRecord;
use secant::Proposal;

pub fn row_reply(l: Line) -> Reply
    ensures { result ≡ row_reply l }
{
    Reply {
        refusal: l.refusal,
        letter: l.letter,
        ..first(l.density.0)
    }
}

// cp first, and w's refusal beside cp's.
pub fn cp_w_reply(a: CpW) -> Reply
    ensures { result ≡ cp_w_reply (paper_cp_w a) }
{
    let cp = number_reply(a.cp);
    let w = number_reply(a.w);
    let mut numbers = cp.numbers;
    numbers[1] = w.numbers[0];
    Reply {
        numbers,
        beside: w.refusal.into(),
        ..cp
    }
}

// A T or d that a search found, and its trials beside.
pub fn found_reply(a: Result<Proposal, Refusal>) -> Reply
    ensures { result ≡ found_reply (paper a) }
{
    match a {
        Ok(q) => Reply {
            beside: q.trials,
            ..first(q.place)
        },
        Err(k) => refused(k.into()),
    }
}

// A record whose state a search found, and its trials beside.
pub fn searched_reply(a: SearchedRecord) -> Reply
    ensures { result ≡ searched_reply (paper_searched a) }
{
    Reply {
        beside: a.trials,
        numbers: a.record.into(),
        ..refused(refusal_byte(a.verdict))
    }
}
