// Standard input read in pages, and bytes written, for the programs that work rows: what fails is said on standard error.
// What was read is known where the reader's bytes are, what was written where the writer's are; of standard input and output nothing is known.
#![tactic(auto)]

ghost use Rattle.std.specs.Prelude.{◌≡◌, ◌≤◌, length, take, IsTrue};
ghost use Rattle.std.specs.Io.KnownBytes.{Appends, Consumes, IsAtEnd};

use std::io::{Cursor, Error, IsTerminal, Read, Write};

// Why no more bytes were read.
#[derive(Clone, Copy, Debug, PartialEq, Eq)]
pub enum Stop {
    Full,
    Ended,
    Failed,
}

// What reading came to: how many bytes there are, and why no more.
// Kept: no Result, since the bytes before a failed read are still told; and no error, since its reason is said where the read fails.
#[derive(Clone, Copy, Debug)]
pub struct Reading {
    pub have: usize,
    pub stop: Stop,
}

// Reads until the bytes are full or the input ends: a read may give fewer than are asked for. Says `what` and the reason of a failed read.
pub fn read_until_full<R: Read>(
    rt: HostRuntime,
    what: &[u8],
    input: &mut R,
    bytes: &mut [u8],
) -> Reading
    ensures within { result.have ≤ length bytes.new }
    ensures have { result.have ≡ length (take result.have bytes.new) }
    ensures gathered { Consumes (R.remaining input.old) (R.remaining input.new) (take result.have bytes.new) }
    ensures full { result.stop ≡ Stop.Full → result.have ≡ length bytes.new }
    ensures ended { result.stop ≡ Stop.Ended → IsAtEnd (R.remaining input.new) }
{
    // Kept: a while, since each read gives as many bytes as it likes.
    let mut have = 0;
    while have < bytes.len() {
        match input.read(&mut bytes[have..]) {
            Ok(0) => {
                return Reading {
                    have,
                    stop: Stop::Ended,
                };
            }
            Ok(n) => have += n,
            Err(e) => {
                fail(rt, what, e);
                return Reading {
                    have,
                    stop: Stop::Failed,
                };
            }
        }
    }
    Reading {
        have,
        stop: Stop::Full,
    }
}

// Writes the bytes and answers whether that went well. Says `what` and the reason where it did not.
// Kept: a bool, for the reason is said here and a caller has only to stop.
pub fn send<W: Write>(rt: HostRuntime, what: &[u8], to: &mut W, bytes: &[u8]) -> bool
    ensures sent { IsTrue result → Appends (W.contents to.old) (W.contents to.new) bytes.now }
{
    match to.write_all(bytes) {
        Ok(()) => true,
        Err(e) => {
            fail(rt, what, e);
            false
        }
    }
}

// On standard error.
pub fn say(rt: HostRuntime, text: &[u8]) {
    let _ = rt.stderr().write_all(text);
}

// How many bytes of a reason are said at most.
const REASON: usize = 96;

// A line: what failed, a colon and the reason, as the system words it and without its number.
fn fail(rt: HostRuntime, what: &[u8], reason: Error) {
    let mut text = [0u8; REASON];
    let mut room = Cursor::new(&mut text[..]);
    let _ = write!(room, "{reason}");
    let end = room.position() as usize;
    say(rt, what);
    say(rt, b": ");
    say(rt, without_number(&text[..end.min(REASON)]));
    say(rt, b"\n");
}

// A reason without the system's number of it, which stands behind it in brackets.
fn without_number(reason: &[u8]) -> &[u8] {
    match reason
        .windows(11)
        .position(|w| w == b" (os error ".as_slice())
    {
        Some(end) => &reason[..end],
        None => reason,
    }
}

// Whether standard input is a terminal; there it says the usage. A terminal changes bytes on their way (a carriage return, a control
// character), so that rows read from one could be others than were sent.
pub fn from_terminal(rt: HostRuntime, usage: &[u8]) -> bool {
    if rt.stdin().is_terminal() {
        say(rt, usage);
        return true;
    }
    false
}
