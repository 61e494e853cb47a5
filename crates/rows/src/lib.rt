// The work of `letters` on lent bytes: rows of 16 bytes in, lines of text out, in buffers of fixed size that the caller lends again and again.
// What stands in each byte is in specs/Lines.antt.
#![tactic(auto)]

mod put;
mod take;

ghost use Rattle.std.specs.Prelude.{◌≡◌, ◌≤◌, length};
ghost use Rattle.std.proofs.lemmas.List.Edits.{sets};
ghost use Rattle.text.specs.Text.{Wrote};
ghost use Rattle.rows.specs.Lines.{p_column, t_column, rows_in, page_of, end_of};

use put::{put_last, put_lines};
use take::take_rows;

// What a page is worked in: the columns of its rows, and its lines.
// Kept: arrays of fixed size with a count beside them: a rule of the project, fixed memory.
#[derive(Drop)]
pub struct Room {
    pub ps: [f64; 512],
    pub ts: [f64; 512],
    pub lines: [u8; 16384],
}

fn rows_in(done: u64, n: usize) -> usize
    ensures { result ≡ rows_in done n }
{
    (n / 16).min(512).min((u64::MAX - done) as usize)
}

// The lines of up to 512 rows, after `done` rows, by way of the two columns. Answers where they end.
// Kept: an index and no slice of the lines, which would leave the room lent, with nothing promised of it.
pub fn page(bytes: &[u8], done: u64, room: &mut Room) -> usize
    ensures wrote { Wrote room.old.lines 0 (page_of done bytes.now) room.new.lines result }
    ensures upper_bound { result ≤ 16384 }
    ensures ps_after { room.new.ps ≡ sets room.old.ps 0 (p_column bytes.now (rows_in done (length bytes.now))) }
    ensures ts_after { room.new.ts ≡ sets room.old.ts 0 (t_column bytes.now (rows_in done (length bytes.now))) }
{
    let n = rows_in(done, bytes.len());
    take_rows(bytes, n, &mut room.ps, &mut room.ts);
    put_lines(&room.ps, &room.ts, n, done, &mut room.lines)
}

// The last line, after the page of the same bytes. Answers where it ends.
pub fn last_line(bytes: &[u8], done: u64, lines: &mut [u8; 16384]) -> usize
    ensures wrote { Wrote lines.old 0 (end_of done (length bytes.now)) lines.new result }
    ensures upper_bound { result ≤ 16384 }
{
    let n = rows_in(done, bytes.len()) as u64;
    put_last(done + n, bytes.len() as u64 - 16 * n, lines)
}
