// exp x: with k the whole number nearest x/L and r = x - k*L, a series in r gives exp r, and that times 2^k is exp x.
ghost use Rattle.std.specs.Prelude.{◌≡◌, ◌≤◌, T, nat_abs};
ghost use Rattle.common.specs.Outcome.{or_nan};
ghost use Rattle.common.specs.Answer.{paper};
ghost use Rattle.rules.specs.Exp.{nearest_whole, two_to, exponential_rule};
ghost use Rattle.rules.specs.RawExp.{at_most1010, raw_exp};

use common::{Interval, Refusal, check_only, or_nan, settle};

// The x that the rule takes.
const TAKEN: Interval = Interval {
    from: -700.0,
    to: 700.0,
};

// The f64 nearest ln 2.
const L: f64 = 0.6931471805599453;

// The whole number nearest to q, ties to even.
// Kept: the sign is taken off and put back. Tried without, and the proof did not close: a cast to an integer takes no -0, which a q above -0.5 rounds to.
fn nearest_whole(q: f64) -> i64
    requires { T (at_most1010 q) }
    ensures is { result ≡ nearest_whole q }
    ensures small { nat_abs result ≤ 1010 }
{
    let n = q.abs().round_ties_even() as i64;
    if q < 0.0 { -n } else { n }
}

// 2^k
fn two_to(k: i64) -> f64
    requires { nat_abs k ≤ 1010 }
    ensures { result ≡ two_to k }
{
    f64::from_bits((1023 + k) as u64 * 0x10_0000_0000_0000)
}

// 14, 13, .. 1.
const DIVISORS: [f64; 14] = [
    14.0, 13.0, 12.0, 11.0, 10.0, 9.0, 8.0, 7.0, 6.0, 5.0, 4.0, 3.0, 2.0, 1.0,
];

// The steps from k on with no check; p is 2^k.
fn exp_steps(x: f64, k: f64, p: f64) -> f64
    ensures { result ≡ raw_exp x k p }
{
    let r = x - k * L;
    let mut s = 1.0;
    for d in DIVISORS {
        s = 1.0 + r * s / d;
    }
    s * p
}

pub fn exponential(x: f64) -> Result<f64, Refusal>
    ensures { paper result ≡ exponential_rule x }
{
    check_only(x, TAKEN)?;
    let k = nearest_whole(x / L);
    settle(exp_steps(x, k as f64, two_to(k)))
}

// For the layers above, which test once: a NaN where the rule refuses.
pub fn raw_exponential(x: f64) -> f64
    ensures { result ≡ or_nan (exponential_rule x) }
{
    or_nan(exponential(x))
}
