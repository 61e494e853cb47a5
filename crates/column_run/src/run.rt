// The column run: rows of p and T in, a letter byte, a density and a refusal byte for each row out (specs/Columns.antt), in two turns over the columns: the
// first marks where each row's volume comes from, the second works the densities (column_row).
ghost use Rattle.std.specs.Prelude.{◌≡◌, length};
ghost use Rattle.common.specs.Answer.{paper};
ghost use Rattle.column_run.specs.Columns.{lent, same, letter_in, density_in, refusal_in, rows_by, columns_rule};
ghost use Rattle.column_row.specs.TwoTurns.{mark_in, stop_in};

use column_row::{line_of, mark};
use common::{Kelvin, MPa, Refusal, refusal_byte};
use origin::origin_pT;

// The marks and the refusals so far of all rows. A processor need not wait here for one row's letter to begin with the next, and where
// the densities are worked every letter is known.
#[tactic(auto, using(crate::proofs::Rows::filled_none, crate::proofs::Rows::filled_more))]
fn mark_rows(ps: &[f64], ts: &[f64], letters: &mut [u8], refusals: &mut [u8])
    requires times_long { length ts.now ≡ length ps.now }
    requires letters_long { length letters.old ≡ length ps.now }
    requires refusals_long { length refusals.old ≡ length ps.now }
    ensures letters_after { letters.new ≡ rows_by mark_in ps.now ts.now }
    ensures refusals_after { refusals.new ≡ rows_by stop_in ps.now ts.now }
{
    for k in 0..ps.len() {
        let w = origin_pT(MPa(ps[k]), Kelvin(ts[k]));
        letters[k] = mark(w);
        refusals[k] = refusal_byte(w);
    }
}

// Every row of columns of one length, from its marks.
#[tactic(auto, using(crate::proofs::Rows::filled_none, crate::proofs::Rows::rows_long, crate::proofs::Rows::left_all))]
fn fill_rows(ps: &[f64], ts: &[f64], letters: &mut [u8], densities: &mut [f64], refusals: &mut [u8])
    requires times_long { length ts.now ≡ length ps.now }
    requires densities_long { length densities.old ≡ length ps.now }
    requires letters_marked { letters.old ≡ rows_by mark_in ps.now ts.now }
    requires refusals_marked { refusals.old ≡ rows_by stop_in ps.now ts.now }
    ensures letters_after { letters.new ≡ rows_by letter_in ps.now ts.now }
    ensures densities_after { densities.new ≡ rows_by density_in ps.now ts.now }
    ensures refusals_after { refusals.new ≡ rows_by refusal_in ps.now ts.now }
{
    for i in 0..ps.len() {
        let line = line_of(letters[i], refusals[i], MPa(ps[i]), Kelvin(ts[i]));
        letters[i] = line.letter;
        densities[i] = line.density.0;
        refusals[i] = line.refusal;
    }
}

fn same_length(n: usize, a: usize, b: usize, c: usize, d: usize) -> bool
    ensures { result ≡ same n a b c d }
{
    a == n && b == n && c == n && d == n
}

// The columns, or refusal 7 and nothing written.
// Kept: five columns side by side and no struct of them, since a caller in C lends each by itself (r3_columns).
#[tactic(auto, unfolding(crate::specs::Columns::columns_rule))]
pub fn columns(
    ps: &[f64],
    ts: &[f64],
    letters: &mut [u8],
    densities: &mut [f64],
    refusals: &mut [u8],
) -> Result<(), Refusal>
    ensures { (paper result, lent letters.new densities.new refusals.new) ≡ columns_rule ps.now ts.now (lent letters.old densities.old refusals.old) }
{
    if !same_length(
        ps.len(),
        ts.len(),
        letters.len(),
        densities.len(),
        refusals.len(),
    ) {
        return Err(Refusal::Columns);
    }
    mark_rows(ps, ts, letters, refusals);
    fill_rows(ps, ts, letters, densities, refusals);
    Ok(())
}
