// Numbers in lent bytes, the little end first. A number of which a byte would lie past the end reads as 0, and is not written.
#![tactic(auto)]

ghost use Rattle.std.specs.Prelude.{◌≡◌, ℕ, ◌+◌, ◌≤◌, ◌<◌, ◌^◌, leb, length, get_or, MatchOption};
ghost use Rattle.std.specs.Float.{binary64};
ghost use Rattle.std.specs.Float.Ieee.{of_bits, to_bits};
ghost use Rattle.buffer.specs.Bytes.{int_in, float_in, eight, placed};

// Whether k bytes from an index on lie in n bytes.
pub fn lies(at: usize, k: usize, n: usize) -> bool
    ensures { result ≡ leb (at + k) n }
{
    k <= n && at <= n - k
}

pub fn byte_at(s: &[u8], at: usize) -> u8
    ensures { result ≡ get_or s.now at 0 }
{
    s.get(at).copied().unwrap_or(0)
}

// The N bytes from an index on, where all of them lie in s.
fn array_at<const N: usize>(s: &[u8], at: usize) -> Option<[u8; N]>
    ensures { MatchOption result (length s.now < at + N) (λ b. (at + N ≤ length s.now) ×
        ((i : ℕ) → i < N → get_or b i 0 ≡ get_or s.now (at + i) 0)) }
{
    s.get(at..)?.first_chunk().copied()
}

// Four bytes with a sign.
pub fn int_at(s: &[u8], at: usize) -> i32
    ensures { result ≡ int_in s.now at }
{
    let b = array_at(s, at).unwrap_or([0; 4]);
    i32::from_le_bytes(b)
}

// The number of its bits. Every pattern of a NaN is the one NaN: from_bits is not defined there.
pub fn float_of(n: u64) -> f64
    ensures { result ≡ of_bits binary64 n }
{
    if n % 0x8000_0000_0000_0000 > 0x7ff0_0000_0000_0000 {
        return f64::NAN;
    }
    f64::from_bits(n)
}

pub fn float_at(s: &[u8], at: usize) -> f64
    ensures { result ≡ float_in s.now at }
{
    let b = array_at(s, at).unwrap_or([0; 8]);
    float_of(u64::from_le_bytes(b))
}

// Bytes from an index on, where all of them have room.
// Kept: an index here and below: a reply's numbers have fixed places, and room for a part of one is left as it is.
pub fn put_bytes(out: &mut [u8], at: usize, bytes: &[u8])
    ensures { out.new ≡ placed out.old at bytes.now }
{
    if lies(at, bytes.len(), out.len()) {
        out[at..at + bytes.len()].copy_from_slice(bytes);
    }
}

// Eight bytes.
pub fn put_word(out: &mut [u8], at: usize, n: u64)
    ensures { out.new ≡ placed out.old at (eight n) }
{
    put_bytes(out, at, &n.to_le_bytes());
}

// The bits of a number. A NaN, whose bits are not one pattern, has the pattern of `to_bits`.
fn bits(x: f64) -> u64
    ensures { result ≡ to_bits binary64 x }
{
    if x.is_nan() {
        0x7ff8_0000_0000_0000
    } else {
        x.to_bits()
    }
}

pub fn put_float(out: &mut [u8], at: usize, x: f64)
    ensures { out.new ≡ placed out.old at (eight (to_bits binary64 x)) }
{
    put_word(out, at, bits(x));
}
