// The sum of a printed table, (n * vi^I) * vj^J over its rows in table order. At usual bases, where no power can be lost, no power needs a look; at any
// other the powers are the rule's.
#![tactic(auto)]

ghost use Rattle.std.specs.Prelude.{◌≡◌, ℕ, List, IsTrue};
ghost use Rattle.common.specs.Outcome.{check, or_nan};
ghost use Rattle.common.specs.Sum.{every, raw_total};
ghost use Rattle.powers.specs.Powers.{BarePowers, Powers};
ghost use Rattle.algo.specs.Table.{Row, sum_rule, term};
ghost use Rattle.algo.specs.Raw.{covers, tabled_term, Summed, gate};
ghost use Rattle.table_sums.specs.ByPowers.{rows_in, SummedBy};

use algo::{Order, gated};
use common::finite_or_nan;
use powers::{fill_bare, fill_powers, power_in};
use sizes::usual;

// A printed table: its rows I, J, n, with I from -DOWN_I to UP_I and J from -DOWN_J to UP_J.
// Kept: four numbers, and no struct of them: tried, and the powers are no longer written out (260,000 sums in 177 million instructions, and not 58).
pub trait Table {
    ghost rows: { List Row };

    ghost UP_I: { ℕ };

    ghost DOWN_I: { ℕ };

    ghost UP_J: { ℕ };

    ghost DOWN_J: { ℕ };

    const UP_I: u32;

    const DOWN_I: u32;

    const UP_J: u32;

    const DOWN_J: u32;

    fn rows() -> &'static [(i32, i32, f64)]
        ensures printed { rows_in result.now ≡ rows }
        ensures covered { IsTrue (every (covers Order.Zero Order.Zero UP_I DOWN_I UP_J DOWN_J) rows) };
}

// The rows added to a sum, by two tables of powers.
#[inline(always)]
fn plain_part(before: f64, wi: &[f64; 129], wj: &[f64; 129], rows: &[(i32, i32, f64)]) -> f64
    ensures { result ≡ raw_total (tabled_term Order.Zero Order.Zero wi.now wj.now) before (rows_in rows.now) }
{
    let mut sum = before;
    for (i, j, n) in rows {
        sum += *n * power_in(wi, i64::from(*i)) * power_in(wj, i64::from(*j));
    }
    sum
}

// The sum of (n * vi^I) * vj^J by two tables of powers. It goes in parts so short that a compiler writes them out where the rows are constants, and then
// works no powers but those that the rows name, and tests nothing.
#[inline(always)]
fn plain_sum(wi: &[f64; 129], wj: &[f64; 129], rows: &[(i32, i32, f64)]) -> f64
    ensures { Summed Order.Zero Order.Zero wi.now wj.now (rows_in rows.now) result }
{
    let mut sum = 0.0;
    for part in rows.chunks(11) {
        sum = plain_part(sum, wi, wj, part);
    }
    sum
}

// The sum of rows by the powers from -di to ui of vi and from -dj to uj of vj, with no look at them: at usual bases, and where no row goes further, it is
// the rule's. Where a caller has its rows as constants, a compiler writes all of it out there, and no table of powers is left.
// Kept: `rule_sum` beside it is no plainer as one function with this: the filling and the end of the sum, two closures, are all but the two tables.
#[inline(always)]
pub fn bare_sum(
    vi: f64,
    ui: u32,
    di: u32,
    vj: f64,
    uj: u32,
    dj: u32,
    rows: &[(i32, i32, f64)],
) -> f64
    ensures { SummedBy BarePowers check vi ui di vj uj dj (rows_in rows.now) result }
{
    let mut wi = [0.0; 129];
    let mut wj = [0.0; 129];
    fill_bare(vi, ui, di, &mut wi);
    fill_bare(vj, uj, dj, &mut wj);
    finite_or_nan(plain_sum(&wi, &wj, rows))
}

// The same sum by the powers as the rule has them, of any bases.
pub fn rule_sum(
    vi: f64,
    ui: u32,
    di: u32,
    vj: f64,
    uj: u32,
    dj: u32,
    rows: &[(i32, i32, f64)],
) -> f64
    ensures { SummedBy Powers (gate vi vj) vi ui di vj uj dj (rows_in rows.now) result }
{
    let mut wi = [0.0; 129];
    let mut wj = [0.0; 129];
    fill_powers(vi, ui, di, &mut wi);
    fill_powers(vj, uj, dj, &mut wj);
    gated(vi, vj, plain_sum(&wi, &wj, rows))
}

// The sum of a table.
pub fn sum<T: Table>(x: f64, y: f64) -> f64
    ensures { result ≡ or_nan (sum_rule term x y T.rows) }
{
    if usual(x) && usual(y) {
        bare_sum(x, T::UP_I, T::DOWN_I, y, T::UP_J, T::DOWN_J, T::rows())
    } else {
        rule_sum(x, T::UP_I, T::DOWN_I, y, T::UP_J, T::DOWN_J, T::rows())
    }
}
