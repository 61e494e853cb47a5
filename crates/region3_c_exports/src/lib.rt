// The exported functions of libregion3_c.a, the library for callers in C and Rust: each is region3_c's of the same name, under the same clause. The units, the
// numbers of the refusals and what stands behind each pointer are in bindings/c/region3.h.
// Kept: each call once more, with its clause again, since the C interface needs a symbol of its own for each.
#![tactic(auto)]

ghost use Rattle.std.specs.Prelude.{◌≡◌};
ghost use Rattle.rules.specs.Power.{power_rule};
ghost use Rattle.inverses.specs.Root.{root_rule};
ghost use Rattle.inverses.specs.Log.{logarithm_rule};
ghost use Rattle.rules.specs.Exp.{exponential_rule};
ghost use Rattle.r4.specs.Saturation.{p_saturation_rule, T_saturation_rule};
ghost use Rattle.border.specs.Border.{B23_T2p_rule, B23_p2T_rule};
ghost use Rattle.boundary.specs.Choice.{letter_rule};
ghost use Rattle.by_number.specs.Property.{property_rule};
ghost use Rattle.by_number.specs.Together.{cp_and_w_rule};
ghost use Rattle.record.specs.Record.{report};
ghost use Rattle.td_record.specs.Steps.{record_rule};
ghost use Rattle.region3.specs.Entries.{pT_rule, ph_rule, ps_rule, hs_rule};
ghost use Rattle.search.specs.Calls.{pv2T_reg3_rule, Th2d_reg3_rule, Ts2d_reg3_rule, pv_rule, Th_rule, Ts_rule, report_searched};
ghost use Rattle.column_run.specs.Columns.{lent, columns_rule};
ghost use Rattle.exchange_entry.specs.Write.{written_by};
ghost use Rattle.region3_c.specs.Exported.{Exported, ExportedLetter, ExportedRecord, ExportedFound, ExportedSearched, ExportedColumns, ExportedRead};
ghost use Rattle.region3_c.specs.Version.{library_version};

#[unsafe(no_mangle)]
pub extern "C" fn r3_library_version() -> u32
    ensures { result ≡ library_version }
{
    region3_c::r3_library_version()
}

// The same under a name that has the version in it: a caller that names it cannot be linked with the archive of another version.
#[unsafe(no_mangle)]
pub extern "C" fn r3_library_version_0_3_0() -> u32
    ensures { result ≡ library_version }
{
    region3_c::r3_library_version_0_3_0()
}

#[unsafe(no_mangle)]
pub extern "C" fn r3_power(a: f64, n: i32, out: &mut f64) -> u8
    ensures { Exported (power_rule a n) result out.new }
{
    region3_c::r3_power(a, n, out)
}

#[unsafe(no_mangle)]
pub extern "C" fn r3_root(x: f64, out: &mut f64) -> u8
    ensures { Exported (root_rule x) result out.new }
{
    region3_c::r3_root(x, out)
}

#[unsafe(no_mangle)]
pub extern "C" fn r3_logarithm(x: f64, out: &mut f64) -> u8
    ensures { Exported (logarithm_rule x) result out.new }
{
    region3_c::r3_logarithm(x, out)
}

#[unsafe(no_mangle)]
pub extern "C" fn r3_exponential(x: f64, out: &mut f64) -> u8
    ensures { Exported (exponential_rule x) result out.new }
{
    region3_c::r3_exponential(x, out)
}

#[unsafe(no_mangle)]
pub extern "C" fn r3_p_saturation(t: f64, out: &mut f64) -> u8
    ensures { Exported (p_saturation_rule t) result out.new }
{
    region3_c::r3_p_saturation(t, out)
}

#[unsafe(no_mangle)]
pub extern "C" fn r3_t_saturation(p: f64, out: &mut f64) -> u8
    ensures { Exported (T_saturation_rule p) result out.new }
{
    region3_c::r3_t_saturation(p, out)
}

#[unsafe(no_mangle)]
pub extern "C" fn r3_p_border(t: f64, out: &mut f64) -> u8
    ensures { Exported (B23_T2p_rule t) result out.new }
{
    region3_c::r3_p_border(t, out)
}

#[unsafe(no_mangle)]
pub extern "C" fn r3_t_border(p: f64, out: &mut f64) -> u8
    ensures { Exported (B23_p2T_rule p) result out.new }
{
    region3_c::r3_t_border(p, out)
}

#[unsafe(no_mangle)]
pub extern "C" fn r3_property(number: i32, t: f64, d: f64, out: &mut f64) -> u8
    ensures { Exported (property_rule number t d) result out.new }
{
    region3_c::r3_property(number, t, d, out)
}

// cp and w of one evaluation: returns cp's refusal, and writes w's.
#[unsafe(no_mangle)]
pub extern "C" fn r3_cp_w(t: f64, d: f64, cp: &mut f64, w: &mut f64, w_refusal: &mut u8) -> u8
    ensures { Exported (cp_and_w_rule t d).cp result cp.new × Exported (cp_and_w_rule t d).w w_refusal.new w.new }
{
    region3_c::r3_cp_w(t, d, cp, w, w_refusal)
}

#[unsafe(no_mangle)]
pub extern "C" fn r3_letter(p: f64, t: f64, letter: &mut u8) -> u8
    ensures { ExportedLetter (letter_rule p t) result letter.new }
{
    region3_c::r3_letter(p, t, letter)
}

#[unsafe(no_mangle)]
pub extern "C" fn r3_td(t: f64, d: f64, out: &mut [f64; 10]) -> u8
    ensures { ExportedRecord (report (record_rule t d)) result out.new }
{
    region3_c::r3_td(t, d, out)
}

#[unsafe(no_mangle)]
pub extern "C" fn r3_pt(p: f64, t: f64, out: &mut [f64; 10]) -> u8
    ensures { ExportedRecord (report (pT_rule p t)) result out.new }
{
    region3_c::r3_pt(p, t, out)
}

#[unsafe(no_mangle)]
pub extern "C" fn r3_ph(p: f64, h: f64, out: &mut [f64; 10]) -> u8
    ensures { ExportedRecord (report (ph_rule p h)) result out.new }
{
    region3_c::r3_ph(p, h, out)
}

#[unsafe(no_mangle)]
pub extern "C" fn r3_ps(p: f64, s: f64, out: &mut [f64; 10]) -> u8
    ensures { ExportedRecord (report (ps_rule p s)) result out.new }
{
    region3_c::r3_ps(p, s, out)
}

#[unsafe(no_mangle)]
pub extern "C" fn r3_hs(h: f64, s: f64, out: &mut [f64; 10]) -> u8
    ensures { ExportedRecord (report (hs_rule h s)) result out.new }
{
    region3_c::r3_hs(h, s, out)
}

// What a search finds, and its trials: T at p and v, d at T and h, d at T and s; then the records there.
#[unsafe(no_mangle)]
pub extern "C" fn r3_pv2t(p: f64, v: f64, out: &mut f64, trials: &mut u32) -> u8
    ensures { ExportedFound (pv2T_reg3_rule p v) result out.new trials.new }
{
    region3_c::r3_pv2t(p, v, out, trials)
}

#[unsafe(no_mangle)]
pub extern "C" fn r3_th2d(t: f64, h: f64, out: &mut f64, trials: &mut u32) -> u8
    ensures { ExportedFound (Th2d_reg3_rule t h) result out.new trials.new }
{
    region3_c::r3_th2d(t, h, out, trials)
}

#[unsafe(no_mangle)]
pub extern "C" fn r3_ts2d(t: f64, s: f64, out: &mut f64, trials: &mut u32) -> u8
    ensures { ExportedFound (Ts2d_reg3_rule t s) result out.new trials.new }
{
    region3_c::r3_ts2d(t, s, out, trials)
}

#[unsafe(no_mangle)]
pub extern "C" fn r3_pv(p: f64, v: f64, out: &mut [f64; 10], trials: &mut u32) -> u8
    ensures { ExportedSearched (report_searched (pv_rule p v)) result out.new trials.new }
{
    region3_c::r3_pv(p, v, out, trials)
}

#[unsafe(no_mangle)]
pub extern "C" fn r3_th(t: f64, h: f64, out: &mut [f64; 10], trials: &mut u32) -> u8
    ensures { ExportedSearched (report_searched (Th_rule t h)) result out.new trials.new }
{
    region3_c::r3_th(t, h, out, trials)
}

#[unsafe(no_mangle)]
pub extern "C" fn r3_ts(t: f64, s: f64, out: &mut [f64; 10], trials: &mut u32) -> u8
    ensures { ExportedSearched (report_searched (Ts_rule t s)) result out.new trials.new }
{
    region3_c::r3_ts(t, s, out, trials)
}

// The column run: 0, or 7 and nothing written.
#[unsafe(no_mangle)]
pub extern "C" fn r3_columns(
    p: &[f64],
    t: &[f64],
    letter: &mut [u8],
    density: &mut [f64],
    refusal: &mut [u8],
) -> u8
    ensures { ExportedColumns (columns_rule p.now t.now (lent letter.old density.old refusal.old)) result letter.new density.new refusal.new }
{
    region3_c::r3_columns(p, t, letter, density, refusal)
}

// An exchange record: the byte of the pair that was read, 0 where none was, and the pair's own answer.
#[unsafe(no_mangle)]
pub extern "C" fn r3_read(bytes: &[u8], pair: &mut u8, out: &mut [f64; 10]) -> u8
    ensures { ExportedRead bytes.now result pair.new out.new }
{
    region3_c::r3_read(bytes, pair, out)
}

// The record of a point, by the byte of its pair: 0 and 22 bytes at the front, or a number and every byte as found.
#[unsafe(no_mangle)]
pub extern "C" fn r3_write(pair: u8, a: f64, b: f64, out: &mut [u8]) -> u8
    ensures { (result, out.new) ≡ written_by pair a b out.old }
{
    region3_c::r3_write(pair, a, b, out)
}
