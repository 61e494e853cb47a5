// What a whole number names in three of the entries: a boundary, a letter, a side of the saturation line.
#![tactic(auto)]

ghost use Rattle.std.specs.Prelude.{◌≡◌};
ghost use Rattle.number_entries.specs.Named.{entry_at, letter_at};
ghost use Rattle.number_entries.specs.Numbers.{boundary_reply, letter_volume_reply, phase_volume_reply};

use boundaries::{Boundary, T_atRegionBoundary};
use common::{Kelvin, MPa};
use reply::{Reply, number_reply, refused};
use subregion::Letter;
use volume_at::{Phase, pT2v_3subreg, pT2v_sat_reg3};

// The refusal of an entry, a boundary, a letter or a phase that does not exist.
// Kept: apart from sums_by_number's, which is 255 too: that is another program's, of what does not exist there.
pub const UNKNOWN: u8 = 255;

// The boundaries by their numbers.
const BOUNDARIES: [Boundary; 12] = [
    Boundary::Ab,
    Boundary::Cd,
    Boundary::Ef,
    Boundary::Gh,
    Boundary::Ij,
    Boundary::Jk,
    Boundary::Mn,
    Boundary::Op,
    Boundary::Qu,
    Boundary::Rx,
    Boundary::Uv,
    Boundary::Wx,
];

// The sides of the saturation line by their numbers.
const PHASES: [Phase; 2] = [Phase::Liquid, Phase::Steam];

// The entry of a list that a number names. A negative one names none.
fn named<T: Copy>(list: &[T], n: i32) -> Option<T>
    ensures { result ≡ entry_at list.now n }
{
    list.get(usize::try_from(n).ok()?).copied()
}

// The letter whose ASCII a number is.
fn letter_of(n: i32) -> Option<Letter>
    ensures { result ≡ letter_at n }
{
    let byte = u8::try_from(n).ok()?;
    Letter::try_from(byte).ok()
}

// A boundary by its number.
#[tactic(auto, unfolding(crate::specs::Numbers::boundary_reply))]
pub fn at_boundary(n: i32, p: MPa) -> Reply
    ensures { result ≡ boundary_reply n p.0 }
{
    match named(&BOUNDARIES, n) {
        Some(b) => number_reply(T_atRegionBoundary(p, b)),
        None => refused(UNKNOWN),
    }
}

// A volume equation by its letter's ASCII.
#[tactic(auto, unfolding(crate::specs::Numbers::letter_volume_reply))]
pub fn by_letter(n: i32, p: MPa, t: Kelvin) -> Reply
    ensures { result ≡ letter_volume_reply n p.0 t.0 }
{
    match letter_of(n) {
        Some(l) => number_reply(pT2v_3subreg(p, t, l)),
        None => refused(UNKNOWN),
    }
}

// A side of the saturation line by its number.
#[tactic(auto, unfolding(crate::specs::Numbers::phase_volume_reply))]
pub fn by_phase(n: i32, p: MPa, t: Kelvin) -> Reply
    ensures { result ≡ phase_volume_reply n p.0 t.0 }
{
    match named(&PHASES, n) {
        Some(side) => number_reply(pT2v_sat_reg3(p, t, side)),
        None => refused(UNKNOWN),
    }
}
