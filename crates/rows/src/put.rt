// From choices to lines.
ghost use Rattle.std.specs.Prelude.{◌≡◌, ◌++◌, ◌+◌, ◌*◌, ◌≤◌, ◌<◌, ◌^◌, length};
ghost use Rattle.common.specs.Answer.{paper};
ghost use Rattle.text.specs.Text.{decimal, Wrote};
ghost use Rattle.rows.specs.Lines.{mark_in, line_of, lines_of, last_line};

use boundary::sub_region3_pT;
use common::{Kelvin, MPa, Refusal, refusal_byte};
use subregion::Letter;
use text::Writer;

fn mark(c: Result<Letter, Refusal>) -> u8
    ensures { result ≡ mark_in (paper c) }
{
    match c {
        Ok(l) => l.into(),
        Err(_) => b'-',
    }
}

// A number and the text after it; `put_decimal` wants room for twenty digits.
fn put_number(text: &mut Writer, n: u64, after: &[u8])
    requires { text.old.at + 20 + length after.now ≤ length text.old.out.now }
    ensures wrote { Wrote text.old.out.now text.old.at (decimal n ++ after.now) text.new.out.now text.new.at }
    ensures lent { text.new.out.ghost_name ≡ text.old.out.ghost_name }
{
    text.put_decimal(n);
    text.put(after);
}

// The line of one row, of 27 bytes at most.
fn put_line(text: &mut Writer, row: u64, c: Result<Letter, Refusal>)
    requires { text.old.at + 44 ≤ length text.old.out.now }
    ensures wrote { Wrote text.old.out.now text.old.at (line_of row (paper c)) text.new.out.now text.new.at }
    ensures upper_bound { text.new.at ≤ text.old.at + 27 }
    ensures lent { text.new.out.ghost_name ≡ text.old.out.ghost_name }
{
    put_number(text, row, &[b' ', mark(c), b' ']);
    put_number(text, refusal_byte(c).into(), b"\n");
}

// The lines of the first n rows of the columns, from index 0 on. Answers where they end.
// Kept: the columns and the lines apart, for with the room as one it would have to promise that the columns stay.
pub fn put_lines(
    ps: &[f64; 512],
    ts: &[f64; 512],
    n: usize,
    done: u64,
    out: &mut [u8; 16384],
) -> usize
    requires { (n ≤ 512) × (done + n < 2 ^ 64) }
    ensures wrote { Wrote out.old 0 (lines_of done ps.now ts.now n) out.new result }
    ensures upper_bound { result ≤ 27 * n }
{
    let mut text = Writer { out, at: 0 };
    for i in 0..n {
        let row = done + i as u64 + 1;
        put_line(&mut text, row, sub_region3_pT(MPa(ps[i]), Kelvin(ts[i])));
    }
    text.at
}

// The last line, of 52 bytes at most. Answers where it ends.
pub fn put_last(rows: u64, left: u64, out: &mut [u8; 16384]) -> usize
    ensures wrote { Wrote out.old 0 (last_line rows left) out.new result }
    ensures upper_bound { result ≤ 52 }
{
    let mut text = Writer { out, at: 0 };
    text.put(b"rows ");
    put_number(&mut text, rows, b" left ");
    put_number(&mut text, left, b"\n");
    text.at
}
