// What the library for callers in C and Rust answers; region3_c_exports has each call under its C name. A call returns the refusal's number, 0 where it is
// accepted, and writes what it answers through a pointer (specs/Exported.antt): of the caller's ten numbers each is replaced, or zeroed. The units and the
// numbers of the refusals are in bindings/c/region3.h. In this order: the version, the four rules, the saturation line, the border with region 2, a property,
// cp and w together, the letter, the five records, what a search finds and the records there, the columns, the exchange record.
#![tactic(auto)]

// Kept: a function for each call, since the C interface needs its name and its parameters.

mod exported;

ghost use Rattle.std.specs.Prelude.{◌≡◌};
ghost use Rattle.rules.specs.Power.{power_rule};
ghost use Rattle.inverses.specs.Root.{root_rule};
ghost use Rattle.inverses.specs.Log.{logarithm_rule};
ghost use Rattle.rules.specs.Exp.{exponential_rule};
ghost use Rattle.r4.specs.Saturation.{p_saturation_rule, T_saturation_rule};
ghost use Rattle.border.specs.Border.{B23_T2p_rule, B23_p2T_rule};
ghost use Rattle.boundary.specs.Choice.{letter_rule};
ghost use Rattle.by_number.specs.Property.{property_rule};
ghost use Rattle.by_number.specs.Together.{cp_and_w_rule};
ghost use Rattle.record.specs.Record.{report};
ghost use Rattle.td_record.specs.Steps.{record_rule};
ghost use Rattle.region3.specs.Entries.{pT_rule, ph_rule, ps_rule, hs_rule};
ghost use Rattle.search.specs.Calls.{pv2T_reg3_rule, Th2d_reg3_rule, Ts2d_reg3_rule, pv_rule, Th_rule, Ts_rule, report_searched};
ghost use Rattle.column_run.specs.Columns.{lent, columns_rule};
ghost use Rattle.exchange_entry.specs.Write.{written_by};
ghost use Rattle.region3_c.specs.Exported.{Exported, ExportedLetter, ExportedRecord, ExportedFound, ExportedSearched, ExportedColumns, ExportedRead};
ghost use Rattle.region3_c.specs.Version.{library_version};

use common::{KJPerKg, KJPerKgK, Kelvin, KgPerM3, M3PerKg, MPa, refusal_byte};
use exchange_entry::{verdict_number, verdict_pair};
use exported::{exported, exported_found, exported_record, exported_searched};
use record::Record;
use subregion::letter_byte;

pub fn r3_library_version() -> u32
    ensures { result ≡ library_version }
{
    300
}

// The same under a name that has the version in it: a caller that names it cannot be linked with the archive of another version.
pub fn r3_library_version_0_3_0() -> u32
    ensures { result ≡ library_version }
{
    r3_library_version()
}

pub fn r3_power(a: f64, n: i32, out: &mut f64) -> u8
    ensures { Exported (power_rule a n) result out.new }
{
    exported(rules::power(a, n), out)
}

pub fn r3_root(x: f64, out: &mut f64) -> u8
    ensures { Exported (root_rule x) result out.new }
{
    exported(inverses::root(x), out)
}

pub fn r3_logarithm(x: f64, out: &mut f64) -> u8
    ensures { Exported (logarithm_rule x) result out.new }
{
    exported(inverses::logarithm(x), out)
}

pub fn r3_exponential(x: f64, out: &mut f64) -> u8
    ensures { Exported (exponential_rule x) result out.new }
{
    exported(rules::exponential(x), out)
}

pub fn r3_p_saturation(t: f64, out: &mut f64) -> u8
    ensures { Exported (p_saturation_rule t) result out.new }
{
    exported(r4::p_saturation(Kelvin(t)), out)
}

pub fn r3_t_saturation(p: f64, out: &mut f64) -> u8
    ensures { Exported (T_saturation_rule p) result out.new }
{
    exported(r4::T_saturation(MPa(p)), out)
}

pub fn r3_p_border(t: f64, out: &mut f64) -> u8
    ensures { Exported (B23_T2p_rule t) result out.new }
{
    exported(border::B23_T2p(Kelvin(t)), out)
}

pub fn r3_t_border(p: f64, out: &mut f64) -> u8
    ensures { Exported (B23_p2T_rule p) result out.new }
{
    exported(border::B23_p2T(MPa(p)), out)
}

pub fn r3_property(number: i32, t: f64, d: f64, out: &mut f64) -> u8
    ensures { Exported (property_rule number t d) result out.new }
{
    exported(
        by_number::Td_thermal_reg3(Kelvin(t), KgPerM3(d), number),
        out,
    )
}

// cp and w of one evaluation: returns cp's refusal, and writes w's.
pub fn r3_cp_w(t: f64, d: f64, cp: &mut f64, w: &mut f64, w_refusal: &mut u8) -> u8
    ensures { Exported (cp_and_w_rule t d).cp result cp.new × Exported (cp_and_w_rule t d).w w_refusal.new w.new }
{
    let both = by_number::Td2cp_w_reg3(Kelvin(t), KgPerM3(d));
    *w_refusal = exported(both.w, w);
    exported(both.cp, cp)
}

pub fn r3_letter(p: f64, t: f64, letter: &mut u8) -> u8
    ensures { ExportedLetter (letter_rule p t) result letter.new }
{
    let c = boundary::sub_region3_pT(MPa(p), Kelvin(t));
    *letter = letter_byte(c);
    refusal_byte(c)
}

pub fn r3_td(t: f64, d: f64, out: &mut [f64; 10]) -> u8
    ensures { ExportedRecord (report (record_rule t d)) result out.new }
{
    let a = td_record::Td_reg3(Record::default(), Kelvin(t), KgPerM3(d));
    exported_record(a, out)
}

pub fn r3_pt(p: f64, t: f64, out: &mut [f64; 10]) -> u8
    ensures { ExportedRecord (report (pT_rule p t)) result out.new }
{
    let a = region3::pT_reg3(Record::default(), MPa(p), Kelvin(t));
    exported_record(a, out)
}

pub fn r3_ph(p: f64, h: f64, out: &mut [f64; 10]) -> u8
    ensures { ExportedRecord (report (ph_rule p h)) result out.new }
{
    let a = region3::ph_reg3(Record::default(), MPa(p), KJPerKg(h));
    exported_record(a, out)
}

pub fn r3_ps(p: f64, s: f64, out: &mut [f64; 10]) -> u8
    ensures { ExportedRecord (report (ps_rule p s)) result out.new }
{
    let a = region3::ps_reg3(Record::default(), MPa(p), KJPerKgK(s));
    exported_record(a, out)
}

pub fn r3_hs(h: f64, s: f64, out: &mut [f64; 10]) -> u8
    ensures { ExportedRecord (report (hs_rule h s)) result out.new }
{
    let a = region3::hs_reg3(Record::default(), KJPerKg(h), KJPerKgK(s));
    exported_record(a, out)
}

// What a search finds, and its trials: T at p and v, d at T and h, d at T and s; then the records there.
pub fn r3_pv2t(p: f64, v: f64, out: &mut f64, trials: &mut u32) -> u8
    ensures { ExportedFound (pv2T_reg3_rule p v) result out.new trials.new }
{
    exported_found(search::pv2T_reg3(MPa(p), M3PerKg(v)), out, trials)
}

pub fn r3_th2d(t: f64, h: f64, out: &mut f64, trials: &mut u32) -> u8
    ensures { ExportedFound (Th2d_reg3_rule t h) result out.new trials.new }
{
    exported_found(search::Th2d_reg3(Kelvin(t), KJPerKg(h)), out, trials)
}

pub fn r3_ts2d(t: f64, s: f64, out: &mut f64, trials: &mut u32) -> u8
    ensures { ExportedFound (Ts2d_reg3_rule t s) result out.new trials.new }
{
    exported_found(search::Ts2d_reg3(Kelvin(t), KJPerKgK(s)), out, trials)
}

pub fn r3_pv(p: f64, v: f64, out: &mut [f64; 10], trials: &mut u32) -> u8
    ensures { ExportedSearched (report_searched (pv_rule p v)) result out.new trials.new }
{
    let a = search::pv_reg3(Record::default(), MPa(p), M3PerKg(v));
    exported_searched(a, out, trials)
}

pub fn r3_th(t: f64, h: f64, out: &mut [f64; 10], trials: &mut u32) -> u8
    ensures { ExportedSearched (report_searched (Th_rule t h)) result out.new trials.new }
{
    let a = search::Th_reg3(Record::default(), Kelvin(t), KJPerKg(h));
    exported_searched(a, out, trials)
}

pub fn r3_ts(t: f64, s: f64, out: &mut [f64; 10], trials: &mut u32) -> u8
    ensures { ExportedSearched (report_searched (Ts_rule t s)) result out.new trials.new }
{
    let a = search::Ts_reg3(Record::default(), Kelvin(t), KJPerKgK(s));
    exported_searched(a, out, trials)
}

// The column run: 0, or 7 and nothing written.
pub fn r3_columns(
    p: &[f64],
    t: &[f64],
    letter: &mut [u8],
    density: &mut [f64],
    refusal: &mut [u8],
) -> u8
    ensures { ExportedColumns (columns_rule p.now t.now (lent letter.old density.old refusal.old)) result letter.new density.new refusal.new }
{
    refusal_byte(column_run::columns(p, t, letter, density, refusal))
}

// An exchange record: the byte of the pair that was read, 0 where none was, and the pair's own answer.
pub fn r3_read(bytes: &[u8], pair: &mut u8, out: &mut [f64; 10]) -> u8
    ensures { ExportedRead bytes.now result pair.new out.new }
{
    let a = exchange_entry::answer(Record::default(), bytes);
    *out = a.record.into();
    *pair = verdict_pair(a.verdict);
    verdict_number(a.verdict)
}

// The record of a point, by the byte of its pair: 0 and 22 bytes at the front, or a number and every byte as found.
pub fn r3_write(pair: u8, a: f64, b: f64, out: &mut [u8]) -> u8
    ensures { (result, out.new) ≡ written_by pair a b out.old }
{
    exchange_entry::write_by(pair, a, b, out)
}
