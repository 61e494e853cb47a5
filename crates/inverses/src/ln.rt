// ln x: with x = m * 2^e and m from 0.75 up to 1.5, a series in (m-1)/(m+1) gives ln m, and e*L more is ln x. L is the f64 nearest ln 2.
ghost use Rattle.std.specs.Prelude.{◌≡◌, ◌^◌, ◌<◌};
ghost use Rattle.std.specs.Float.{binary64};
ghost use Rattle.std.specs.Float.Ieee.{of_int, minus};
ghost use Rattle.common.specs.Outcome.{or_nan};
ghost use Rattle.common.specs.Answer.{paper};
ghost use Rattle.inverses.specs.Log.{logarithm_rule};
ghost use Rattle.inverses.specs.RawLog.{raw_ln};

use crate::parts::unpack;
use common::{Refusal, is_finite, or_nan, settle};

// 1/25, 1/23, .. 1.
const INVERSES: [f64; 13] = [
    0.04,
    0.043478260869565216,
    0.047619047619047616,
    0.05263157894736842,
    0.058823529411764705,
    0.06666666666666667,
    0.07692307692307693,
    0.09090909090909091,
    0.1111111111111111,
    0.14285714285714285,
    0.2,
    0.3333333333333333,
    1.0,
];

// ln (m * 2^e), the steps with no check.
fn ln_steps(m: f64, e: f64) -> f64
    ensures { result ≡ raw_ln m e }
{
    let z = (m - 1.0) / (m + 1.0);
    let y = z * z;
    let mut q = 0.037037037037037035;
    for c in INVERSES {
        q = q * y + c;
    }
    e * 0.6931471805599453 + 2.0 * z * q
}

// k - 1074
fn exponent(k: u64) -> f64
    requires { k < 2 ^ 12 }
    ensures { result ≡ of_int binary64 (minus k 1074) }
{
    (k as i64 - 1074) as f64
}

// The 53 digits of 1.5.
const ONE_AND_HALF: u64 = 0x18_0000_0000_0000;

pub fn logarithm(x: f64) -> Result<f64, Refusal>
    ensures { paper result ≡ logarithm_rule x }
{
    if !is_finite(x) {
        return Err(Refusal::NotFinite);
    }
    if x <= 0.0 {
        return Err(Refusal::Step);
    }
    let p = unpack(x);
    let up: u64 = if p.d < ONE_AND_HALF { 0 } else { 1 };
    let m = f64::from_bits(0x3fe0_0000_0000_0000 + p.d - up * 0x10_0000_0000_0000);
    settle(ln_steps(m, exponent(p.e + up)))
}

// For the layers above, which test once: a NaN where the rule refuses.
pub fn raw_logarithm(x: f64) -> f64
    ensures { result ≡ or_nan (logarithm_rule x) }
{
    or_nan(logarithm(x))
}
