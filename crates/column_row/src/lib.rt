// One row of the column run: a letter byte, a density and a refusal byte from p and T (specs/Row.antt). It is worked in two turns, since a column run
// works all rows' letters before all densities: `mark` and the refusal's byte where the volume comes from, `line_of` the volume (specs/TwoTurns.antt).
#![tactic(auto)]

ghost use Rattle.std.specs.Prelude.{◌≡◌};
ghost use Rattle.common.specs.Outcome.{refused};
ghost use Rattle.common.specs.Answer.{paper};
ghost use Rattle.column_row.specs.Row.{line_in, row_rule};
ghost use Rattle.column_row.specs.TwoTurns.{mark_of, of_mark, line_by};

use common::{Kelvin, KgPerM3, MPa, Refusal, refusal_byte};
use origin::origin_pT;
use record::Origin;
use subregion::of_byte;
use volume::found_by;

// The letter's byte, or 0 where there is none; the density; the refusal's number, or 0.
// Kept: numbers for a letter and a refusal, since the columns of the C interface hold bytes.
#[derive(Clone, Copy, Debug, PartialEq)]
pub struct Line {
    pub letter: u8,
    pub density: KgPerM3,
    pub refusal: u8,
}

// The mark of a row at the critical point, which has no letter.
const CRITICAL: u8 = 1;

// What a row's letter byte holds until its density is worked: the letter, the critical point's mark, or 0 where the row is refused.
// Kept: a byte and not an Option of an origin, since the caller's letter bytes are all the memory there is between the two turns.
pub fn mark(w: Result<Origin, Refusal>) -> u8
    ensures { result ≡ mark_of (paper w) }
{
    match w {
        Ok(Origin::Subregion(l)) => l.into(),
        Ok(Origin::Critical) => CRITICAL,
        Err(_) => 0,
    }
}

fn of_mark(m: u8) -> Origin
    ensures { result ≡ of_mark m }
{
    if m == CRITICAL {
        return Origin::Critical;
    }
    Origin::Subregion(of_byte(m))
}

// A refused row.
#[tactic(auto, unfolding(std::specs::Prelude::from_bits))]
fn refused(k: u8) -> Line
    ensures { result ≡ line_in (refused k) }
{
    Line {
        letter: 0,
        density: KgPerM3(0.0),
        refusal: k,
    }
}

// The row from its mark and its refusal's number, or 0.
#[tactic(auto, unfolding(crate::specs::TwoTurns::line_by))]
pub fn line_of(m: u8, k: u8, p: MPa, t: Kelvin) -> Line
    ensures { result ≡ line_by m k p.0 t.0 }
{
    if m == 0 {
        return refused(k);
    }
    match found_by(of_mark(m), p, t) {
        Ok(found) => Line {
            letter: found.origin.into(),
            density: found.density,
            refusal: 0,
        },
        Err(k) => refused(k.into()),
    }
}

// One row, by the steps of (p,T) as far as d.
#[tactic(auto, using(crate::proofs::TwoTurns::row_is))]
pub fn row(p: MPa, t: Kelvin) -> Line
    ensures { result ≡ row_rule p.0 t.0 }
{
    let w = origin_pT(p, t);
    line_of(mark(w), refusal_byte(w), p, t)
}
