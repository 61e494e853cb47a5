// From bytes to columns.
ghost use Rattle.std.specs.Prelude.{◌≡◌, ◌*◌, ◌≤◌, length};
ghost use Rattle.std.proofs.lemmas.List.Edits.{sets};
ghost use Rattle.rows.specs.Lines.{p_column, t_column};

use buffer::float_at;

// The columns of the first n rows.
// Kept: an index, which both columns and the bytes share; three iterators would be no plainer.
pub fn take_rows(s: &[u8], n: usize, ps: &mut [f64], ts: &mut [f64])
    requires { (16 * n ≤ length s.now) × (n ≤ length ps.old) × (n ≤ length ts.old) }
    ensures ps_after { ps.new ≡ sets ps.old 0 (p_column s.now n) }
    ensures ts_after { ts.new ≡ sets ts.old 0 (t_column s.now n) }
{
    for i in 0..n {
        ps[i] = float_at(s, 16 * i);
        ts[i] = float_at(s, 16 * i + 8);
    }
}
