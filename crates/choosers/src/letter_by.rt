// The choosers: a letter by t, from the numbers of the boundaries that t is held against, whatever these are.
// Kept: a function for each band, with its boundaries by their names, as docs/SCOPE.md has them; one over lists of boundaries and letters is no plainer.
ghost use Rattle.std.specs.Prelude.{◌≡◌, cond};
ghost use Rattle.std.specs.Float.Ieee.{le};
ghost use Rattle.choosers.specs.Choosers.{ab_by, cdef_by, chijk_by, clmnopjk_by, csrk_by, cst_by, ct_by, around, uvwx_by, uyzx_by, liquid_by, steam_by, saturated_by};

use common::{Kelvin, MPa};
use subregion::Letter;

// l up to the boundary, which belongs to it, and `beyond` above.
fn upto(b: f64, l: Letter, beyond: Letter, t: f64) -> Letter
    ensures { result ≡ cond (le t b) l beyond }
{
    if t <= b { l } else { beyond }
}

pub fn by_ab(tab: Kelvin, t: Kelvin) -> Letter
    ensures { result ≡ ab_by tab.0 t.0 }
{
    if t.0 > tab.0 { Letter::B } else { Letter::A }
}

pub fn by_cdef(tcd: Kelvin, tab: Kelvin, tef: Kelvin, t: Kelvin) -> Letter
    ensures { result ≡ cdef_by tcd.0 tab.0 tef.0 t.0 }
{
    if t.0 <= tcd.0 {
        Letter::C
    } else if t.0 <= tab.0 {
        Letter::D
    } else if t.0 <= tef.0 {
        Letter::E
    } else {
        Letter::F
    }
}

// Above 23 MPa up to 25: second is g or l. Written from its last letter back: from_x is the letter of a t that lies beyond the letters before x.
// Kept: tried as a chain of ifs, this and by_clmnopjk compile to a branch at each boundary, and a letter of the box takes 3 ns more, of 14 and of 77.
pub fn by_chijk(
    second: Letter,
    tcd: Kelvin,
    tgh: Kelvin,
    tef: Kelvin,
    tij: Kelvin,
    tjk: Kelvin,
    t: Kelvin,
) -> Letter
    ensures { result ≡ chijk_by second tcd.0 tgh.0 tef.0 tij.0 tjk.0 t.0 }
{
    let from_j = upto(tjk.0, Letter::J, Letter::K, t.0);
    let from_i = upto(tij.0, Letter::I, from_j, t.0);
    let from_h = upto(tef.0, Letter::H, from_i, t.0);
    let from_second = upto(tgh.0, second, from_h, t.0);
    upto(tcd.0, Letter::C, from_second, t.0)
}

pub fn by_clmnopjk(
    tcd: Kelvin,
    tgh: Kelvin,
    tmn: Kelvin,
    tef: Kelvin,
    top: Kelvin,
    tij: Kelvin,
    tjk: Kelvin,
    t: Kelvin,
) -> Letter
    ensures { result ≡ clmnopjk_by tcd.0 tgh.0 tmn.0 tef.0 top.0 tij.0 tjk.0 t.0 }
{
    let from_j = upto(tjk.0, Letter::J, Letter::K, t.0);
    let from_p = upto(tij.0, Letter::P, from_j, t.0);
    let from_o = upto(top.0, Letter::O, from_p, t.0);
    let from_n = upto(tef.0, Letter::N, from_o, t.0);
    let from_m = upto(tmn.0, Letter::M, from_n, t.0);
    let from_l = upto(tgh.0, Letter::L, from_m, t.0);
    upto(tcd.0, Letter::C, from_l, t.0)
}

pub fn by_csrk(tcd: Kelvin, tsat: Kelvin, tjk: Kelvin, t: Kelvin) -> Letter
    ensures { result ≡ csrk_by tcd.0 tsat.0 tjk.0 t.0 }
{
    if t.0 <= tcd.0 {
        Letter::C
    } else if t.0 <= tsat.0 {
        Letter::S
    } else if t.0 <= tjk.0 {
        Letter::R
    } else {
        Letter::K
    }
}

pub fn by_cst(tcd: Kelvin, tsat: Kelvin, t: Kelvin) -> Letter
    ensures { result ≡ cst_by tcd.0 tsat.0 t.0 }
{
    if t.0 <= tcd.0 {
        Letter::C
    } else if t.0 <= tsat.0 {
        Letter::S
    } else {
        Letter::T
    }
}

pub fn by_ct(tsat: Kelvin, t: Kelvin) -> Letter
    ensures { result ≡ ct_by tsat.0 t.0 }
{
    upto(tsat.0, Letter::C, Letter::T, t.0)
}

// Round the critical point, or none where the near-critical letters are chosen from.
pub fn round_critical(
    tcd: Kelvin,
    tqu: Kelvin,
    trx: Kelvin,
    tjk: Kelvin,
    t: Kelvin,
) -> Option<Letter>
    ensures { result ≡ around tcd.0 tqu.0 trx.0 tjk.0 t.0 Some None }
{
    if t.0 <= tcd.0 {
        return Some(Letter::C);
    }
    if t.0 <= tqu.0 {
        return Some(Letter::Q);
    }
    if t.0 > trx.0 && t.0 <= tjk.0 {
        return Some(Letter::R);
    }
    if t.0 > tjk.0 {
        return Some(Letter::K);
    }
    None
}

// Above 22.11 MPa.
pub fn by_uvwx(tuv: Kelvin, tef: Kelvin, twx: Kelvin, t: Kelvin) -> Letter
    ensures { result ≡ uvwx_by tuv.0 tef.0 twx.0 t.0 }
{
    if t.0 <= tuv.0 {
        Letter::U
    } else if t.0 < tef.0 {
        Letter::V
    } else if t.0 < twx.0 {
        Letter::W
    } else {
        Letter::X
    }
}

// Above 22.064 MPa.
pub fn by_uyzx(tuv: Kelvin, tef: Kelvin, twx: Kelvin, t: Kelvin) -> Letter
    ensures { result ≡ uyzx_by tuv.0 tef.0 twx.0 t.0 }
{
    if t.0 <= tuv.0 {
        Letter::U
    } else if t.0 <= tef.0 {
        Letter::Y
    } else if t.0 <= twx.0 {
        Letter::Z
    } else {
        Letter::X
    }
}

// Up to 22.064 MPa: liquid up to the saturation temperature, steam above it.
fn by_liquid(tuv: f64, p: f64, t: f64) -> Letter
    ensures { result ≡ liquid_by tuv p t }
{
    if p > 21.93161551 {
        if t < tuv { Letter::U } else { Letter::Y }
    } else {
        Letter::U
    }
}

fn by_steam(twx: f64, p: f64, t: f64) -> Letter
    ensures { result ≡ steam_by twx p t }
{
    if p > 21.90096265 {
        if t < twx { Letter::Z } else { Letter::X }
    } else {
        Letter::X
    }
}

pub fn by_saturated(tsat: Kelvin, tuv: Kelvin, twx: Kelvin, p: MPa, t: Kelvin) -> Letter
    ensures { result ≡ saturated_by tsat.0 tuv.0 twx.0 p.0 t.0 }
{
    if t.0 <= tsat.0 {
        by_liquid(tuv.0, p.0, t.0)
    } else {
        by_steam(twx.0, p.0, t.0)
    }
}
