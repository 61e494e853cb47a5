// The properties at a T and a d: cp and w together, and each by its number. The checks 1, 2, 3 come before a formula's own steps.
ghost use Rattle.std.specs.Prelude.{◌≡◌};
ghost use Rattle.common.specs.Outcome.{check};
ghost use Rattle.common.specs.Answer.{paper};
ghost use Rattle.by_number.specs.Property.{boxed, property_rule};
ghost use Rattle.by_number.specs.Together.{paper_cp_w, cp_and_w_rule};

use crate::CpW;
use common::{
    Kelvin, KgPerM3, OALFAP, OBETAP, OCP, OCV, ODPDT, ODVDP, ODVDT, OE, OEC, OF, OFI, OFU, OG, OH,
    OIJTC, OJTC, OKS, OKT, OP, OPC, OS, OU, OV, OW, OZ, Refusal, check_Td, settle,
};
use extended::{
    raw_dpdtcv, raw_dvdpct, raw_dvdtcp, raw_e, raw_ec, raw_f, raw_fi, raw_g, raw_iJTC, raw_joule,
    raw_kt,
};
use extended_with_p::{state_alfap, state_batap, state_fu, state_ks, state_pc, state_z};
use properties::{raw_cp_w, raw_cv, raw_h, raw_s, raw_u, raw_v, state_p};

// The checks of the call, then what its formula answers.
#[tactic(auto, unfolding(crate::specs::Property::boxed))]
fn answered(t: Kelvin, d: KgPerM3, a: Result<f64, Refusal>) -> Result<f64, Refusal>
    ensures { paper result ≡ boxed t.0 d.0 (paper a) }
{
    check_Td(t, d)?;
    a
}

// The same of a formula's raw number.
fn settled(t: Kelvin, d: KgPerM3, x: f64) -> Result<f64, Refusal>
    ensures { paper result ≡ boxed t.0 d.0 (check x) }
{
    answered(t, d, settle(x))
}

// Specific isobaric heat capacity, kJ/(kg K), and speed of sound, m/s, from one evaluation of the four sums that both need, each a value or a
// refusal of its own: the checks of the call refuse both, a lost sum refuses both with 5, and a step of one's own refuses that one only.
pub fn Td2cp_w_reg3(t: Kelvin, d: KgPerM3) -> CpW
    ensures { paper_cp_w result ≡ cp_and_w_rule t.0 d.0 }
{
    let both = raw_cp_w(t, d);
    CpW {
        cp: settled(t, d, both.cp),
        w: settled(t, d, both.w),
    }
}

// A property by its number: 6 for any other number, before 1, 2, 3.
// Kept: an i32 and one match over the 25 numbers, which are the Rust's and the C interface's, a form that docs/SCOPE names.
pub fn Td_thermal_reg3(t: Kelvin, d: KgPerM3, o_id: i32) -> Result<f64, Refusal>
    ensures { paper result ≡ property_rule o_id t.0 d.0 }
{
    match o_id {
        OP => answered(t, d, state_p(t, d)),
        OV => settled(t, d, raw_v(t, d)),
        OH => settled(t, d, raw_h(t, d)),
        OS => settled(t, d, raw_s(t, d)),
        OE => settled(t, d, raw_e(t, d)),
        OU => settled(t, d, raw_u(t, d)),
        OCP => Td2cp_w_reg3(t, d).cp,
        OCV => settled(t, d, raw_cv(t, d)),
        OW => Td2cp_w_reg3(t, d).w,
        OKS => answered(t, d, state_ks(t, d)),
        OF => settled(t, d, raw_f(t, d)),
        OG => settled(t, d, raw_g(t, d)),
        OZ => answered(t, d, state_z(t, d)),
        OEC => settled(t, d, raw_ec(t, d)),
        OKT => settled(t, d, raw_kt(t, d)),
        ODVDT => settled(t, d, raw_dvdtcp(t, d)),
        ODVDP => settled(t, d, raw_dvdpct(t, d)),
        ODPDT => settled(t, d, raw_dpdtcv(t, d)),
        OIJTC => settled(t, d, raw_iJTC(t, d)),
        OJTC => settled(t, d, raw_joule(t, d)),
        OPC => answered(t, d, state_pc(t, d)),
        OBETAP => answered(t, d, state_batap(t, d)),
        OFI => settled(t, d, raw_fi(t, d)),
        OFU => answered(t, d, state_fu(t, d)),
        OALFAP => answered(t, d, state_alfap(t, d)),
        _ => Err(Refusal::Property),
    }
}
