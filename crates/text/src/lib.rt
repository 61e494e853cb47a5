// Text in lent bytes: a run of bytes (`put`) and a number in decimal (`put_decimal`), written where the last ended, if they have room.
#![tactic(auto)]

ghost use Rattle.std.specs.Prelude.{◌≡◌, ◌+◌, ◌≤◌, ◌%◌, length};
ghost use Rattle.text.specs.Text.{decimal, fitting, Wrote};

use buffer::{lies, put_bytes};

// The bytes that are written to, and the index of the next one.
#[derive(Drop)]
pub struct Writer<'a> {
    pub out: &'a mut [u8],
    pub at: usize,
}

impl Writer<'_> {
    // All of src, or none of it.
    pub fn put(&mut self, src: &[u8])
        ensures wrote { Wrote self.old.out.now self.old.at (fitting self.old.out.now self.old.at (length src.now) src.now) self.new.out.now self.new.at }
        ensures lent { self.new.out.ghost_name ≡ self.old.out.ghost_name }
    {
        if lies(self.at, src.len(), self.out.len()) {
            put_bytes(self.out, self.at, src);
            self.at += src.len();
        }
    }

    // A number, where 20 bytes are left, which is room for any.
    pub fn put_decimal(&mut self, n: u64)
        ensures wrote { Wrote self.old.out.now self.old.at (fitting self.old.out.now self.old.at 20 (decimal n)) self.new.out.now self.new.at }
        ensures lent { self.new.out.ghost_name ≡ self.old.out.ghost_name }
    {
        if lies(self.at, 20, self.out.len()) {
            self.at = put_digits(self.out, self.at, n);
        }
    }
}

// The digits of a number from an index on. Answers the index after them.
// Kept: digits by hand, since the library's `write!` promises nothing of what it writes to lent bytes; and an index that is handed on, no method of
// `Writer`, whose index would be read from memory and written there for each digit (docs/DESIGN-PASS.md has the times).
fn put_digits(out: &mut [u8], at: usize, n: u64) -> usize
    requires { at + length (decimal n) ≤ length out.old }
    ensures { Wrote out.old at (decimal n) out.new result }
{
    if n < 10 {
        out[at] = digit(n);
        return at + 1;
    }
    let next = put_digits(out, at, n / 10);
    out[next] = digit(n);
    next + 1
}

fn digit(n: u64) -> u8
    ensures { result ≡ 48 + n % 10 }
{
    b'0' + (n % 10) as u8
}
