// The f64 nearest the exact root: proposed by float steps, proved by an exact test on whole numbers, and by halving where the test
// says no.
ghost use Rattle.std.specs.Prelude.{◌≡◌, ◌+◌, ◌*◌, ◌/◌, ◌^◌, ◌<◌, ◌≤◌, T, true};
ghost use Rattle.common.specs.Outcome.{or_nan};
ghost use Rattle.common.specs.Answer.{paper};
ghost use Rattle.inverses.specs.Units.{in_units, positive};
ghost use Rattle.inverses.specs.Root.{Near, nearest_root, root_rule};

use crate::parts::unpack;
use common::{Refusal, is_finite, or_nan};

// The whole part of (r*r + t) / 2^52, with r = a * 2^27 + b.
fn high(r: u64, t: u64) -> u64
    requires { (r ≤ 2 ^ 53) × (t ≤ 2 ^ 54) }
    ensures { result ≡ (r * r + t) / 2 ^ 52 }
{
    let a = r / 0x800_0000;
    let b = r % 0x800_0000;
    a * a * 4 + (a * b + (b * b + t) / 0x1000_0000) / 0x100_0000
}

// The leading digits of the number whose root is taken, 53 of them, or 54 where the places after them would be odd.
#[derive(Clone, Copy)]
struct Digits {
    d: u64,
    ghost leading: { (2 ^ 52 ≤ d) × (d < 2 ^ 54) },
}

impl Digits {
    // Whether r is the whole number nearest the root of d * 2^52: whether d * 2^52 is at most r*r + r and above r*r - r. The latter can be below 0, so
    // that 2^54, which is 4 * 2^52, goes to both sides.
    fn is_near(self, r: u64) -> bool
        requires { r ≤ 2 ^ 53 }
        ensures { result ≡ true → Near (self.d * 2 ^ 52) r }
    {
        self.d <= high(r, r) && high(r, 0x40_0000_0000_0000 - r) < self.d + 4
    }

    // The whole number nearest the root of d * 2^52, found by halving.
    fn by_halves(self) -> u64
        ensures { Near (self.d * 2 ^ 52) result }
    {
        // Kept: a while, since an interval is halved and no index counted.
        let mut low: u64 = 0x10_0000_0000_0000;
        let mut up: u64 = 0x20_0000_0000_0000;
        while low < up {
            let r = (low + up) / 2;
            if high(r, r) < self.d {
                low = r + 1;
            } else {
                up = r;
            }
        }
        low
    }

    // A first guess at the root of d * 2^52, by three of Newton's steps from a parabola. Nothing is promised of it but its digits.
    fn proposed(self) -> u64
        ensures { (2 ^ 52 ≤ result) × (result < 2 ^ 53) }
    {
        let f = ((self.d / 2) as f64) * 0.0000000000000004440892098500626;
        let mut s = (f * -0.0348 + 0.5022) * f + 0.543;
        for _ in 0..3 {
            s = (s + f / s) * 0.5;
        }
        if s < 1.0 {
            0x10_0000_0000_0000
        } else if s < 2.0 {
            s.to_bits() % 0x10_0000_0000_0000 + 0x10_0000_0000_0000
        } else {
            0x1f_ffff_ffff_ffff
        }
    }

    // The whole number nearest the root of d * 2^52: the guess or a neighbour of it, if one passes the test, and else by halving.
    fn near_root(self) -> u64
        ensures { Near (self.d * 2 ^ 52) result }
    {
        let r = self.proposed();
        if self.is_near(r) {
            r
        } else if self.is_near(r + 1) {
            r + 1
        } else if self.is_near(r - 1) {
            r - 1
        } else {
            self.by_halves()
        }
    }
}

fn positive_root(x: f64) -> f64
    requires { T (positive x) }
    ensures { result ≡ nearest_root (in_units x) }
{
    let p = unpack(x);
    let d = if p.e % 2 == 0 { p.d } else { p.d * 2 };
    let k = (p.e + 970) / 2;
    f64::from_bits(k * 0x10_0000_0000_0000 + Digits { d }.near_root())
}

pub fn root(x: f64) -> Result<f64, Refusal>
    ensures { paper result ≡ root_rule x }
{
    if !is_finite(x) {
        return Err(Refusal::NotFinite);
    }
    if x == 0.0 {
        return Ok(x);
    }
    if x < 0.0 {
        return Err(Refusal::Step);
    }
    Ok(positive_root(x))
}

// For the layers above, which test once: a NaN where the rule refuses.
pub fn raw_root(x: f64) -> f64
    ensures { result ≡ or_nan (root_rule x) }
{
    or_nan(root(x))
}
