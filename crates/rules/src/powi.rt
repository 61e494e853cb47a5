// a^n by the bits of |n|, the lowest first. At a usual base no r on the way can be lost, and none is looked at; at any other each is.
ghost use Rattle.std.specs.Prelude.{◌≡◌, ℕ, suc, ◌<◌, ◌^◌};
ghost use Rattle.common.specs.Outcome.{or_nan};
ghost use Rattle.common.specs.Answer.{paper};
ghost use Rattle.rules.specs.Power.{lowest, power_rule};
ghost use Rattle.rules.specs.RawPower.{kept, over_bits, power_by_bits, raw_power};

use common::{Refusal, is_finite, or_nan, settle};
use sizes::{look, usual};

// r on the way to a power of a, looked at where LOOKED.
fn kept<const LOOKED: bool>(a: f64, r: f64) -> f64
    ensures { result ≡ kept LOOKED a r }
{
    if LOOKED { look(a, r) } else { r }
}

// r times x to the n, for a power of a: where n's lowest bit is set r becomes r*x, and while higher bits remain x becomes x*x.
fn by_bits<const LOOKED: bool>(a: f64, r: f64, x: f64, n: u32) -> f64
    ensures { (k : ℕ) → n < 2 ^ suc k → result ≡ over_bits (kept LOOKED a) r x (lowest (suc k) n) }
{
    let s = if n % 2 == 1 {
        kept::<LOOKED>(a, r * x)
    } else {
        r
    };
    let h = n / 2;
    if h == 0 {
        s
    } else {
        by_bits::<LOOKED>(a, s, x * x, h)
    }
}

// Kept: two tests, one in the other: as one condition the compiler works the division for every n.
fn power_by_bits<const LOOKED: bool>(a: f64, n: i32) -> f64
    ensures { result ≡ power_by_bits LOOKED a n }
{
    let r = by_bits::<LOOKED>(a, 1.0, a, n.unsigned_abs());
    if n < 0 {
        if is_finite(r) {
            kept::<LOOKED>(a, 1.0 / r)
        } else {
            r
        }
    } else {
        r
    }
}

// The power with no look at any r: the rule's where the base is usual.
pub fn bare_power(a: f64, n: i32) -> f64
    ensures { result ≡ raw_power a n }
{
    power_by_bits::<false>(a, n)
}

pub fn power(a: f64, n: i32) -> Result<f64, Refusal>
    ensures { paper result ≡ power_rule a n }
{
    let taken = n.unsigned_abs() <= 64;
    if taken && usual(a) {
        return settle(bare_power(a, n));
    }
    if !is_finite(a) {
        return Err(Refusal::NotFinite);
    }
    if !taken {
        return Err(Refusal::Second);
    }
    settle(power_by_bits::<true>(a, n))
}

// For the layers above: the power, or a NaN where it is refused.
pub fn raw_power(a: f64, n: i32) -> f64
    ensures { result ≡ or_nan (power_rule a n) }
{
    or_nan(power(a, n))
}
