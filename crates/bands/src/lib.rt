// The bands by p away from the critical point. Each works its boundaries out and hands them to its chooser. Then one test refuses with 5 if any of them is
// not finite: a number less itself is 0, or a NaN where it is not finite (proofs/Lost). Between 19 and 25 MPa no power of p and no polynomial in p can be so
// (boundaries/proofs/Kept): the bands there take their bare forms, and test the other boundaries alone. Which p has which band is in crate boundary.
// Kept: a function for each band, as docs/SCOPE.md has them, of p and t as in the Rust: a point of the two, or one function over lists, is no plainer.
#![tactic(auto, using(crate::proofs::Lost::one_kept, crate::proofs::Lost::three_kept))]

ghost use Rattle.std.specs.Prelude.{◌≡◌, cond};
ghost use Rattle.common.specs.Outcome.{value, refused, finite};
ghost use Rattle.common.specs.Answer.{paper};
ghost use Rattle.bands.specs.Bands.{raw_ab, raw_cdef, raw_chijk, raw_clmnopjk, raw_csrk, raw_cst, raw_ct};

use boundaries::{Boundary, bare_boundary, raw_boundary};
use choosers::{by_ab, by_cdef, by_chijk, by_clmnopjk, by_csrk, by_cst, by_ct};
use common::{Kelvin, MPa, Refusal, settle};
use r4::raw_T_saturation;
use subregion::Letter;

// The letter, or 5 where x is lost.
pub fn answered(l: Letter, x: f64) -> Result<Letter, Refusal>
    ensures { paper result ≡ cond (finite x) (value l) (refused 5) }
{
    settle(x)?;
    Ok(l)
}

pub fn band_ab(p: MPa, t: Kelvin) -> Result<Letter, Refusal>
    ensures { paper result ≡ raw_ab p.0 t.0 }
{
    let tab = raw_boundary(Boundary::Ab, p);
    answered(by_ab(Kelvin(tab), t), tab)
}

pub fn band_cdef(p: MPa, t: Kelvin) -> Result<Letter, Refusal>
    ensures { paper result ≡ raw_cdef p.0 t.0 }
{
    let tab = raw_boundary(Boundary::Ab, p);
    let tcd = raw_boundary(Boundary::Cd, p);
    let tef = raw_boundary(Boundary::Ef, p);
    answered(
        by_cdef(Kelvin(tcd), Kelvin(tab), Kelvin(tef), t),
        (tab - tab) + (tcd - tcd) + (tef - tef),
    )
}

pub fn band_chijk(second: Letter, p: MPa, t: Kelvin) -> Letter
    ensures { result ≡ raw_chijk second p.0 t.0 }
{
    let tcd = bare_boundary(Boundary::Cd, p);
    let tef = raw_boundary(Boundary::Ef, p);
    let tgh = bare_boundary(Boundary::Gh, p);
    let tij = bare_boundary(Boundary::Ij, p);
    let tjk = bare_boundary(Boundary::Jk, p);
    by_chijk(
        second,
        Kelvin(tcd),
        Kelvin(tgh),
        Kelvin(tef),
        Kelvin(tij),
        Kelvin(tjk),
        t,
    )
}

pub fn band_clmnopjk(p: MPa, t: Kelvin) -> Result<Letter, Refusal>
    ensures { paper result ≡ raw_clmnopjk p.0 t.0 }
{
    let tcd = bare_boundary(Boundary::Cd, p);
    let tef = raw_boundary(Boundary::Ef, p);
    let tgh = bare_boundary(Boundary::Gh, p);
    let tij = bare_boundary(Boundary::Ij, p);
    let tjk = bare_boundary(Boundary::Jk, p);
    let tmn = bare_boundary(Boundary::Mn, p);
    let top = raw_boundary(Boundary::Op, p);
    answered(
        by_clmnopjk(
            Kelvin(tcd),
            Kelvin(tgh),
            Kelvin(tmn),
            Kelvin(tef),
            Kelvin(top),
            Kelvin(tij),
            Kelvin(tjk),
            t,
        ),
        top,
    )
}

pub fn band_csrk(p: MPa, t: Kelvin) -> Result<Letter, Refusal>
    ensures { paper result ≡ raw_csrk p.0 t.0 }
{
    let tcd = bare_boundary(Boundary::Cd, p);
    let tjk = bare_boundary(Boundary::Jk, p);
    let tsat = raw_T_saturation(p);
    answered(by_csrk(Kelvin(tcd), Kelvin(tsat), Kelvin(tjk), t), tsat)
}

pub fn band_cst(p: MPa, t: Kelvin) -> Result<Letter, Refusal>
    ensures { paper result ≡ raw_cst p.0 t.0 }
{
    let tcd = bare_boundary(Boundary::Cd, p);
    let tsat = raw_T_saturation(p);
    answered(by_cst(Kelvin(tcd), Kelvin(tsat), t), tsat)
}

pub fn band_ct(p: MPa, t: Kelvin) -> Result<Letter, Refusal>
    ensures { paper result ≡ raw_ct p.0 t.0 }
{
    let tsat = raw_T_saturation(p);
    answered(by_ct(Kelvin(tsat), t), tsat)
}
