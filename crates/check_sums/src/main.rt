// Writes what the eleven table sums come to on columns that a caller lends: 96 tables of 1040 bytes from standard input and then rows of 24, for each
// row a reply of 88 bytes on standard output. tools/sums_rows.py says how they lie.
#![tactic(auto)]

use reply::Reply;
use sum_rows::reply_to;

// The loop ends by this number of rows, which no run reaches.
const MOST: u64 = 0xffff_ffff_ffff_ffff;

// The rows, each answered as it is read.
// Kept: a loop of its own in each program: the words that it says and what it does with a row are its own, and little else is in it.
fn answer_rows(rt: HostRuntime, tables: &[u8]) {
    let mut row = [0u8; 24];
    for done in 0..MOST {
        let reading = stdio::read_until_full(
            rt,
            b"check_sums: standard input",
            &mut rt.stdin(),
            &mut row,
        );
        if !pages::go_on(
            rt,
            b"check_sums: rows ",
            reading.stop,
            done,
            reading.have as u64,
        ) {
            return;
        }
        let answer: Reply = reply_to(&row, tables);
        if !stdio::send(
            rt,
            b"check_sums: writing",
            &mut rt.stdout(),
            &<[u8; 88]>::from(answer),
        ) {
            return;
        }
    }
}

fn main(rt: HostRuntime) {
    if stdio::from_terminal(
        rt,
        b"check_sums: what the table sums come to: reads 96 tables and rows of 24 bytes from a file or a pipe, not from a terminal\n",
    ) {
        return;
    }
    let mut tables = [0u8; 99840];
    let reading = stdio::read_until_full(
        rt,
        b"check_sums: standard input",
        &mut rt.stdin(),
        &mut tables,
    );
    if pages::go_on(
        rt,
        b"check_sums: rows ",
        reading.stop,
        0,
        reading.have as u64,
    ) {
        answer_rows(rt, &tables);
    }
}
