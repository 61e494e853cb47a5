// Writes exchange records: rows of 24 bytes from standard input (pair, room, fill byte, two f64), for each 48 bytes on standard output, its refusal and its room.
// Standard error has what was not answered and why: bytes after the last whole row, a failed read, a failed write.
#![tactic(auto)]

use buffer::float_at;
use exchange_entry::write_by;

// A row's room is at most this.
const ROOM: usize = 40;

// The room of a row, filled and written to. Answers the refusal.
fn fill_and_put(out: &mut [u8], row: &[u8; 24]) -> u8 {
    out.fill(row[2]);
    write_by(row[0], float_at(row, 8), float_at(row, 16), out)
}

fn reply(row: &[u8; 24]) -> [u8; 48] {
    let mut out = [0; 48];
    let end = 8 + usize::from(row[1]).min(ROOM);
    out[0] = fill_and_put(&mut out[8..end], row);
    out
}

// One turn: a row and its reply. Answers whether to go on.
// Kept: a turn of its own in each program: the words that it says and what it does with a row are its own, and the loop is three lines.
fn turn(rt: HostRuntime, done: u64) -> bool {
    let mut row = [0; 24];
    let reading = stdio::read_until_full(rt, b"forward: standard input", &mut rt.stdin(), &mut row);
    if !pages::go_on(
        rt,
        b"forward: rows ",
        reading.stop,
        done,
        reading.have as u64,
    ) {
        return false;
    }
    stdio::send(rt, b"forward: writing", &mut rt.stdout(), &reply(&row))
}

// The loop ends by a number of rows that no run reaches.
fn main(rt: HostRuntime) {
    if stdio::from_terminal(
        rt,
        b"forward: the exchange record of each row: reads rows of 24 bytes (pair, room, fill byte, two f64) from a file or a pipe, not from a terminal\n",
    ) {
        return;
    }
    for done in 0..u64::MAX {
        if !turn(rt, done) {
            return;
        }
    }
}
