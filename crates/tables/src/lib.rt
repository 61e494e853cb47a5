// The sum of a letter's table.
#![tactic(auto)]

ghost use Rattle.std.specs.Prelude.{◌≡◌};
ghost use Rattle.common.specs.Outcome.{or_nan};
ghost use Rattle.algo.specs.Table.{sum_rule, term};
ghost use Rattle.tables.specs.Summed.{summed};

use subregion::Letter;
use table_sums::sum;
use tables_a_g::{V3a, V3b, V3c, V3d, V3e, V3f, V3g};
use tables_h_m::{V3h, V3i, V3j, V3k, V3l, V3m};
use tables_n_t::{V3n, V3o, V3p, V3q, V3r, V3s, V3t};
use tables_u_z::{V3u, V3v, V3w, V3x, V3y, V3z};

// Kept: a match over the 26 letters, by which the definition `summed` chooses too; each letter's table is a type, and a type is chosen by a match alone.
pub fn letter_sum(l: Letter, x: f64, y: f64) -> f64
    ensures { result ≡ or_nan (sum_rule term x y (summed l)) }
{
    match l {
        Letter::A => sum::<V3a>(x, y),
        Letter::B => sum::<V3b>(x, y),
        Letter::C => sum::<V3c>(x, y),
        Letter::D => sum::<V3d>(x, y),
        Letter::E => sum::<V3e>(x, y),
        Letter::F => sum::<V3f>(x, y),
        Letter::G => sum::<V3g>(x, y),
        Letter::H => sum::<V3h>(x, y),
        Letter::I => sum::<V3i>(x, y),
        Letter::J => sum::<V3j>(x, y),
        Letter::K => sum::<V3k>(x, y),
        Letter::L => sum::<V3l>(x, y),
        Letter::M => sum::<V3m>(x, y),
        Letter::N => sum::<V3n>(x, y),
        Letter::O => sum::<V3o>(x, y),
        Letter::P => sum::<V3p>(x, y),
        Letter::Q => sum::<V3q>(x, y),
        Letter::R => sum::<V3r>(x, y),
        Letter::S => sum::<V3s>(x, y),
        Letter::T => sum::<V3t>(x, y),
        Letter::U => sum::<V3u>(x, y),
        Letter::V => sum::<V3v>(x, y),
        Letter::W => sum::<V3w>(x, y),
        Letter::X => sum::<V3x>(x, y),
        Letter::Y => sum::<V3y>(x, y),
        Letter::Z => sum::<V3z>(x, y),
    }
}
