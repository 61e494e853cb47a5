// Answers records from standard input, each after its length in two bytes, little end first, with replies of 112 bytes on standard output.
// Standard error has what was not answered and why: a record that is not whole, a failed read, a failed write.
#![tactic(auto)]

mod bytes;

// A record whose length was read, into a room of that length. Answers whether to go on.
fn answer(rt: HostRuntime, record: &mut [u8], done: u64) -> bool {
    let reading = stdio::read_until_full(rt, b"exchange: standard input", &mut rt.stdin(), record);
    if reading.have < record.len() {
        pages::say_end(
            rt,
            b"exchange: records ",
            done,
            2u64.wrapping_add(reading.have as u64),
        );
        return false;
    }
    stdio::send(
        rt,
        b"exchange: writing",
        &mut rt.stdout(),
        &bytes::reply(record),
    )
}

// One turn: a length and its record. Answers whether to go on.
fn turn(rt: HostRuntime, room: &mut [u8; 65536], done: u64) -> bool {
    let mut head = [0; 2];
    let reading = stdio::read_until_full(
        rt,
        b"exchange: standard input",
        &mut rt.stdin(),
        &mut head,
    );
    if !pages::go_on(
        rt,
        b"exchange: records ",
        reading.stop,
        done,
        reading.have as u64,
    ) {
        return false;
    }
    let size = usize::from(u16::from_le_bytes(head));
    answer(rt, &mut room[..size], done)
}

// The loop ends by a number of records that no run reaches.
fn main(rt: HostRuntime) {
    if stdio::from_terminal(
        rt,
        b"exchange: the answer of each record: reads a length of two bytes and a record of that length from a file or a pipe, not from a terminal\n",
    ) {
        return;
    }
    let mut room = [0; 65536];
    for done in 0..u64::MAX {
        if !turn(rt, &mut room, done) {
            return;
        }
    }
}
