// The powers of one base, each worked once: the power n stands at 64 + n, for n from -64 to 64. At a usual base they are worked by doubling, at any other
// one by one by the rule.
#![tactic(auto)]

ghost use Rattle.std.specs.Prelude.{◌≡◌, List, ℕ, ◌+◌, ◌-◌, ◌<◌, ◌≤◌, ◌^◌, Float};
ghost use Rattle.powers.specs.Powers.{Written, WrittenBy, BarePowers, Powers, ruled, exponent_at, looked_up};
ghost use Rattle.powers.specs.Reach.{squared};

use common::over;
use rules::raw_power;
use sizes::usual;

// The first powers of a base make as many of the next, or fewer: w[k + half] = w[k] * sq, with sq the power at half.
fn double(half: usize, count: usize, sq: f64, w: &mut [f64; 129])
    requires { (count ≤ half) × (half + count ≤ 65) }
    ensures { (a : Float) (b : List Float) (h : ℕ) → h ≤ 31 → half ≡ 2 ^ h → sq ≡ squared h a →
        Written a b w.old 64 (64 + half) → Written a b w.new 64 (64 + half + count) }
{
    for k in 0..count {
        w[64 + half + k] = w[64 + k] * sq;
    }
}

// The powers of a from 0 to `top`, or to 7.
// Kept: the doublings stand one by one. The first three have a fixed length and each of the others may be the last, so a loop over them is no plainer.
fn fill_up(a: f64, top: usize, w: &mut [f64; 129])
    requires { top ≤ 64 }
    ensures { Written a w.old w.new 64 (72 + (top - 7)) }
{
    w[64] = 1.0;
    double(1, 1, a, w);
    let a2 = a * a;
    double(2, 2, a2, w);
    let a4 = a2 * a2;
    double(4, 4, a4, w);
    if top < 8 {
        return;
    }
    let a8 = a4 * a4;
    double(8, (top - 7).min(8), a8, w);
    if top < 16 {
        return;
    }
    let a16 = a8 * a8;
    double(16, (top - 15).min(16), a16, w);
    if top < 32 {
        return;
    }
    let a32 = a16 * a16;
    double(32, (top - 31).min(32), a32, w);
    if top < 64 {
        return;
    }
    double(64, 1, a32 * a32, w);
}

// The powers from -1 to -low.
fn fill_down(low: usize, w: &mut [f64; 129])
    requires { low ≤ 64 }
    ensures { (a : Float) (b : List Float) (hi : ℕ) → 65 + low ≤ hi →
        Written a b w.old 64 hi → Written a b w.new (64 - low) hi }
{
    for k in 0..low {
        w[63 - k] = over(1.0, w[65 + k]);
    }
}

// The powers from -down to up, no further than 64 either way, with no look at them: at a usual base they are the rule's.
pub fn fill_bare(a: f64, up: u32, down: u32, w: &mut [f64; 129])
    ensures { BarePowers a w.old w.new up down }
{
    fill_up(a, up.max(down).min(64) as usize, w);
    fill_down(down.min(64) as usize, w);
}

// The exponent whose power stands at k.
fn exponent_at(k: usize) -> i32
    requires { k < 129 }
    ensures { result ≡ exponent_at k }
{
    k as i32 - 64
}

// The powers of any base that stand from `lo` to below `hi`, one by one.
fn fill_by_rule(a: f64, lo: usize, hi: usize, w: &mut [f64; 129])
    requires { (lo ≤ hi) × (hi ≤ 129) }
    ensures { WrittenBy (ruled a) w.old w.new lo hi }
{
    for k in lo..hi {
        w[k] = raw_power(a, exponent_at(k));
    }
}

// The powers from -down to up of any base, no further than 64 either way, as the rule has them: a NaN for one that is refused.
pub fn fill_powers(a: f64, up: u32, down: u32, w: &mut [f64; 129])
    ensures { Powers a w.old w.new up down }
{
    if usual(a) {
        fill_bare(a, up, down, w);
    } else {
        let top = up.max(down).min(64) as usize;
        let low = down.min(64) as usize;
        fill_by_rule(a, 64 - low, 65 + top.max(7), w);
    }
}

// The power n of a table, or a NaN for an exponent that has no place there.
pub fn power_in(w: &[f64; 129], n: i64) -> f64
    ensures { result ≡ looked_up w.now n }
{
    if n < -64 || n > 64 {
        f64::NAN
    } else {
        w[(n + 64) as usize]
    }
}
