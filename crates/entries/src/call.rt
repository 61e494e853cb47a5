// What each entry answers: a call of the library, and its answer's shape.
ghost use Rattle.std.specs.Prelude.{◌≡◌};
ghost use Rattle.entries.specs.Entries.{reply_rule, asked_rule};

use crate::shape::{cp_w_reply, found_reply, row_reply, searched_reply};
use boundary::sub_region3_pT;
use common::{KJPerKg, KJPerKgK, Kelvin, KgPerM3, M3PerKg, MPa};
use entry_numbers::Entry;
use number_entries::{UNKNOWN, at_boundary, by_letter, by_phase};
use record::Record;
use reply::{Reply, letter_reply, number_reply, record_reply, refused};
use volume_at::pT2v_reg3;

// Kept: a match and no table of functions, since the entries take their arguments under different units.
#[tactic(auto, unfolding(crate::specs::Entries::reply_rule))]
fn named(entry: Entry, n: i32, a: f64, b: f64) -> Reply
    ensures { result ≡ reply_rule entry n a b }
{
    let given = Record::default();
    match entry {
        Entry::Power => number_reply(rules::power(a, n)),
        Entry::Root => number_reply(inverses::root(a)),
        Entry::Logarithm => number_reply(inverses::logarithm(a)),
        Entry::Exponential => number_reply(rules::exponential(a)),
        Entry::PSaturation => number_reply(r4::p_saturation(Kelvin(a))),
        Entry::TSaturation => number_reply(r4::T_saturation(MPa(a))),
        Entry::Boundary => at_boundary(n, MPa(a)),
        Entry::Letter => letter_reply(sub_region3_pT(MPa(a), Kelvin(b))),
        Entry::LetterVolume => by_letter(n, MPa(a), Kelvin(b)),
        Entry::Volume => number_reply(pT2v_reg3(MPa(a), Kelvin(b))),
        Entry::PhaseVolume => by_phase(n, MPa(a), Kelvin(b)),
        Entry::PhT => number_reply(backward::ph2T_reg3(MPa(a), KJPerKg(b))),
        Entry::PhV => number_reply(backward::ph2v_reg3(MPa(a), KJPerKg(b))),
        Entry::PsT => number_reply(backward::ps2T_reg3(MPa(a), KJPerKgK(b))),
        Entry::PsV => number_reply(backward::ps2v_reg3(MPa(a), KJPerKgK(b))),
        Entry::HsP => number_reply(backward::hs2p_reg3(KJPerKg(a), KJPerKgK(b))),
        Entry::BorderT => number_reply(border::B23_p2T(MPa(a))),
        Entry::BorderP => number_reply(border::B23_T2p(Kelvin(a))),
        Entry::TdRecord => record_reply(td_record::Td_reg3(given, Kelvin(a), KgPerM3(b))),
        Entry::PtRecord => record_reply(region3::pT_reg3(given, MPa(a), Kelvin(b))),
        Entry::PhRecord => record_reply(region3::ph_reg3(given, MPa(a), KJPerKg(b))),
        Entry::PsRecord => record_reply(region3::ps_reg3(given, MPa(a), KJPerKgK(b))),
        Entry::HsRecord => record_reply(region3::hs_reg3(given, KJPerKg(a), KJPerKgK(b))),
        Entry::Property => number_reply(by_number::Td_thermal_reg3(Kelvin(a), KgPerM3(b), n)),
        Entry::PvRecord => searched_reply(search::pv_reg3(given, MPa(a), M3PerKg(b))),
        Entry::ThRecord => searched_reply(search::Th_reg3(given, Kelvin(a), KJPerKg(b))),
        Entry::TsRecord => searched_reply(search::Ts_reg3(given, Kelvin(a), KJPerKgK(b))),
        Entry::ColumnRow => row_reply(column_row::row(MPa(a), Kelvin(b))),
        Entry::CpW => cp_w_reply(by_number::Td2cp_w_reg3(Kelvin(a), KgPerM3(b))),
        Entry::PvT => found_reply(search::pv2T_reg3(MPa(a), M3PerKg(b))),
        Entry::ThD => found_reply(search::Th2d_reg3(Kelvin(a), KJPerKg(b))),
        Entry::TsD => found_reply(search::Ts2d_reg3(Kelvin(a), KJPerKgK(b))),
    }
}

// What an entry answers, and the refusal where a number names none.
pub fn answer(entry: Option<Entry>, n: i32, a: f64, b: f64) -> Reply
    ensures { result ≡ asked_rule entry n a b }
{
    match entry {
        Some(entry) => named(entry, n, a, b),
        None => refused(UNKNOWN),
    }
}
