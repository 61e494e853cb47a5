// Answers rows of 24 bytes from standard input with replies of 88 on standard output, 512 rows at a time.
// Standard error has what was not answered and why: bytes after the last whole row, a failed read, a failed write.
#![tactic(auto)]

// The loop ends by this number of rows, which no run reaches.
const MOST: u64 = 0xffff_ffff_ffff_0000;

// A page of rows: read, answered, written. Answers whether to go on.
fn turn(rt: HostRuntime, rows: &mut [u8], replies: &mut [u8], done: u64) -> bool {
    let reading = stdio::read_until_full(rt, b"answers: standard input", &mut rt.stdin(), rows);
    let read = &rows[..reading.have];
    let n = entries::answer_rows(read, replies);
    if !stdio::send(
        rt,
        b"answers: writing",
        &mut rt.stdout(),
        &replies[..88 * n],
    ) {
        return false;
    }
    let by_now = done.wrapping_add(n as u64);
    pages::go_on(
        rt,
        b"answers: rows ",
        reading.stop,
        by_now,
        (read.len() % 24) as u64,
    )
}

fn main(rt: HostRuntime) {
    if stdio::from_terminal(
        rt,
        b"answers: the answer of each row: reads rows of 24 bytes (entry, number, two f64) from a file or a pipe, not from a terminal\n",
    ) {
        return;
    }
    let mut rows = [0; 12288];
    let mut replies = [0; 45056];
    for done in (0..MOST).step_by(512) {
        if !turn(rt, &mut rows, &mut replies, done) {
            return;
        }
    }
}
