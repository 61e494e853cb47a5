// The sums over a table that share an item of each row, multiply it by its exponents, and are divided once at their end: two or four at a time, by two
// tables of powers. A sum goes to the end of the shortest column; an exponent that has no place in a table of powers makes it a NaN.
#![tactic(auto)]

ghost use Rattle.std.specs.Prelude.{◌≡◌, pos, ◌-ℤ◌};
ghost use Rattle.std.specs.Float.{binary64};
ghost use Rattle.std.specs.Float.Ieee.{of_int};
ghost use Rattle.common.specs.Outcome.{or_nan};
ghost use Rattle.algo.specs.Raw.{raw_weigh, raw_divided, SharesSummed, gate};
ghost use Rattle.slopes.specs.Rows.{rows};

use algo::{Order, Share, gated};
use common::over;
use slopes::{Columns, factor, fallen};

// Two sums of one item, in the order of the call's name.
#[derive(Clone, Copy)]
pub struct Pair {
    pub first: f64,
    pub second: f64,
}

// The sums differentiated by vi, twice by vi, by both and twice by vj, of one item.
#[derive(Clone, Copy)]
pub struct Four {
    pub i: f64,
    pub ii: f64,
    pub ij: f64,
    pub jj: f64,
}

// k - 1
fn one_less(k: i32) -> f64
    ensures { result ≡ of_int binary64 (k -ℤ pos 1) }
{
    (k as i64 - 1) as f64
}

// What the item x of a row adds to a sum.
// Kept: this and `divide` match over the closed kind `Share`, by which the definitions `raw_weigh` and `raw_divided` choose too (the reason stands at it).
fn weigh(s: Share, i: i32, j: i32, x: f64) -> f64
    ensures { result ≡ raw_weigh s i j x }
{
    match s {
        Share::Whole => x,
        Share::I => (i as f64) * x,
        Share::IAgain => one_less(i) * x,
        Share::J => (j as f64) * x,
        Share::Ii => one_less(i) * ((i as f64) * x),
        Share::Ij => (j as f64) * ((i as f64) * x),
        Share::Jj => fallen(j) * x,
    }
}

// And what the sum is divided by at its end.
fn divide(s: Share, vi: f64, vj: f64, x: f64) -> f64
    ensures { result ≡ raw_divided s vi vj x }
{
    match s {
        Share::Whole => x,
        Share::I | Share::IAgain => over(x, vi),
        Share::J => over(x, vj),
        Share::Ii => over(x, vi * vi),
        Share::Ij => over(x, vi * vj),
        Share::Jj => over(x, vj * vj),
    }
}

// A joint sum x of finite vi and vj, divided, or a NaN.
pub fn finished(s: Share, vi: f64, vj: f64, x: f64) -> f64
    ensures { result ≡ or_nan (gate vi vj (raw_divided s vi vj x)) }
{
    gated(vi, vj, divide(s, vi, vj, x))
}

// Two sums of one item, which may be differentiated by vi.
pub fn joint_sums(
    a: Order,
    s: Share,
    t: Share,
    wi: &[f64; 129],
    wj: &[f64; 129],
    table: Columns,
) -> Pair
    ensures { SharesSummed a s wi.now wj.now (rows table.entry) result.first
        × SharesSummed a t wi.now wj.now (rows table.entry) result.second }
{
    let mut first = 0.0;
    let mut second = 0.0;
    for ((&i, &j), &n) in table.is.iter().zip(table.js).zip(table.ns) {
        let item = factor(Order::Zero, wj, j, factor(a, wi, i, n));
        first += weigh(s, i, j, item);
        second += weigh(t, i, j, item);
    }
    Pair { first, second }
}

// Four sums of one item: by vi, twice by vi, by both, and twice by vj.
pub fn four_sums(wi: &[f64; 129], wj: &[f64; 129], table: Columns) -> Four
    ensures { SharesSummed Order.Zero Share.I wi.now wj.now (rows table.entry) result.i
        × SharesSummed Order.Zero Share.Ii wi.now wj.now (rows table.entry) result.ii
        × SharesSummed Order.Zero Share.Ij wi.now wj.now (rows table.entry) result.ij
        × SharesSummed Order.Zero Share.Jj wi.now wj.now (rows table.entry) result.jj }
{
    let mut by_i = 0.0;
    let mut by_ii = 0.0;
    let mut by_ij = 0.0;
    let mut by_jj = 0.0;
    for ((&i, &j), &n) in table.is.iter().zip(table.js).zip(table.ns) {
        let item = factor(Order::Zero, wj, j, factor(Order::Zero, wi, i, n));
        by_i += weigh(Share::I, i, j, item);
        by_ii += weigh(Share::Ii, i, j, item);
        by_ij += weigh(Share::Ij, i, j, item);
        by_jj += weigh(Share::Jj, i, j, item);
    }
    Four {
        i: by_i,
        ii: by_ii,
        ij: by_ij,
        jj: by_jj,
    }
}
