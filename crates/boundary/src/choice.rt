// The letter by p and t: which band p lies in, and the bands round the critical point, which work their boundaries out and test once those that may not be
// finite, as the other bands do (crate bands). Last the call, behind its box and the border with region 2.
// Kept: p and t by themselves, as every call of the Rust takes them.
ghost use Rattle.std.specs.Prelude.{◌≡◌, false};
ghost use Rattle.std.specs.Float.Ieee.{lt};
ghost use Rattle.common.specs.Decimal.{whole};
ghost use Rattle.common.specs.Answer.{paper};
ghost use Rattle.choosers.specs.Choosers.{band_to23, band_to40};
ghost use Rattle.boundary.specs.Choice.{letter_by, letter_at, letter_rule};
ghost use Rattle.boundary.specs.Raw.{raw_to2211, raw_near, raw_cq_rk};

use bands::{
    answered, band_ab, band_cdef, band_chijk, band_clmnopjk, band_csrk, band_cst, band_ct,
};
use border::check_region3;
use boundaries::{Boundary, bare_boundary, raw_boundary};
use choosers::{by_saturated, by_uvwx, by_uyzx, round_critical};
use common::{Kelvin, MPa, Refusal};
use r4::raw_T_saturation;
use subregion::Letter;

// p_saturation(643.15).
const LIMIT: f64 = 21.0433673189753;

// The small regions round the critical point up to 22.11 MPa.
fn up_to_22_11(tuv: f64, twx: f64, tef: f64, p: MPa, t: Kelvin) -> Result<Letter, Refusal>
    ensures { paper result ≡ raw_to2211 tuv twx tef p.0 t.0 }
{
    if p.0 > 22.064 {
        return answered(by_uyzx(Kelvin(tuv), Kelvin(tef), Kelvin(twx), t), twx);
    }
    let tsat = raw_T_saturation(p);
    answered(
        by_saturated(Kelvin(tsat), Kelvin(tuv), Kelvin(twx), p, t),
        (twx - twx) + (tsat - tsat),
    )
}

// The small regions round the critical point.
fn band_near(p: MPa, t: Kelvin) -> Result<Letter, Refusal>
    ensures { paper result ≡ raw_near p.0 t.0 }
{
    let tuv = bare_boundary(Boundary::Uv, p);
    let twx = raw_boundary(Boundary::Wx, p);
    let tef = raw_boundary(Boundary::Ef, p);
    if p.0 > 22.11 {
        return answered(by_uvwx(Kelvin(tuv), Kelvin(tef), Kelvin(twx), t), twx);
    }
    up_to_22_11(tuv, twx, tef, p, t)
}

fn band_cq_rk(p: MPa, t: Kelvin) -> Result<Letter, Refusal>
    ensures { paper result ≡ raw_cq_rk p.0 t.0 }
{
    let tcd = bare_boundary(Boundary::Cd, p);
    let tqu = bare_boundary(Boundary::Qu, p);
    let trx = bare_boundary(Boundary::Rx, p);
    let tjk = bare_boundary(Boundary::Jk, p);
    match round_critical(Kelvin(tcd), Kelvin(tqu), Kelvin(trx), Kelvin(tjk), t) {
        Some(l) => Ok(l),
        None => band_near(p, t),
    }
}

// Up to 23 MPa.
fn up_to_23(p: MPa, t: Kelvin) -> Result<Letter, Refusal>
    ensures { lt (whole 25) p.0 ≡ false → paper result ≡ letter_by band_to23 p.0 t.0 }
{
    let x = p.0;
    if x > 22.5 {
        return band_clmnopjk(p, t);
    }
    if x > LIMIT {
        return band_cq_rk(p, t);
    }
    if x > 20.5 {
        return band_csrk(p, t);
    }
    if x > 19.00881189173929 {
        return band_cst(p, t);
    }
    band_ct(p, t)
}

// Up to 40 MPa.
fn up_to_40(p: MPa, t: Kelvin) -> Result<Letter, Refusal>
    ensures { paper result ≡ letter_by band_to40 p.0 t.0 }
{
    let x = p.0;
    if x > 25.0 {
        return band_cdef(p, t);
    }
    if x > 23.5 {
        return Ok(band_chijk(Letter::G, p, t));
    }
    if x > 23.0 {
        return Ok(band_chijk(Letter::L, p, t));
    }
    up_to_23(p, t)
}

// The letter by the bands alone, whatever p and t are: no box is tested. For calls that have tested one of their own.
pub fn letter_at(p: MPa, t: Kelvin) -> Result<Letter, Refusal>
    ensures { paper result ≡ letter_at p.0 t.0 }
{
    let x = p.0;
    if x > 40.0 {
        if x <= 100.0 {
            return band_ab(p, t);
        }
        return band_cdef(p, t);
    }
    up_to_40(p, t)
}

// The letter of the subregion that (p, t) lies in: refused with 8 beyond the border with region 2.
#[tactic(auto, unfolding(crate::specs::Choice::letter_rule))]
pub fn sub_region3_pT(p: MPa, t: Kelvin) -> Result<Letter, Refusal>
    ensures { paper result ≡ letter_rule p.0 t.0 }
{
    check_region3(p, t)?;
    letter_at(p, t)
}
