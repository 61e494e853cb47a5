// The sums over a table whose terms are differentiated, each by itself, by two tables of powers. A sum goes to the end of the shortest column; an exponent
// that has no place in a table of powers makes it a NaN, so that nothing is asked of a caller.
#![tactic(auto)]

ghost use Rattle.std.specs.Prelude.{◌≡◌};
ghost use Rattle.algo.specs.Raw.{fallen_by, tabled_factor, Summed};
ghost use Rattle.slopes.specs.Rows.{rows};

use algo::Order;
use powers::power_in;

// A table that is lent by its columns.
#[derive(Clone, Copy)]
pub struct Columns<'a> {
    pub is: &'a [i32],
    pub js: &'a [i32],
    pub ns: &'a [f64],
}

// k * (k - 1), or a NaN for an exponent that has no place, differentiated twice or not at all.
pub fn fallen(k: i32) -> f64
    ensures { result ≡ fallen_by k }
{
    if k.unsigned_abs() > 66 {
        return f64::NAN;
    }
    (k * (k - 1)) as f64
}

// x with the factor v^k, differentiated so often, by the powers of v.
pub fn factor(d: Order, w: &[f64; 129], k: i32, x: f64) -> f64
    ensures { result ≡ tabled_factor d w.now k x }
{
    let n = k as i64;
    match d {
        Order::Zero => x * power_in(w, n),
        Order::One => x * (k as f64) * power_in(w, n - 1),
        Order::Two => x * fallen(k) * power_in(w, n - 2),
    }
}

// The sum of the rows' terms. Kept: the two tables of powers are no struct, since `factor` reads each by itself.
fn slope_rows(a: Order, b: Order, wi: &[f64; 129], wj: &[f64; 129], table: Columns) -> f64
    ensures { Summed a b wi.now wj.now (rows table.entry) result }
{
    let mut sum = 0.0;
    for ((&i, &j), &n) in table.is.iter().zip(table.js).zip(table.ns) {
        sum += factor(b, wj, j, factor(a, wi, i, n));
    }
    sum
}

// Any of the six sums that are differentiated term by term. The order in vi is told apart before the loop, which a compiler then writes out for each.
// Kept: with one function for all orders the sums of table 30 take 6 % more instructions.
pub fn slope_sum(a: Order, b: Order, wi: &[f64; 129], wj: &[f64; 129], table: Columns) -> f64
    ensures { Summed a b wi.now wj.now (rows table.entry) result }
{
    match a {
        Order::Zero => slope_rows(Order::Zero, b, wi, wj, table),
        Order::One => slope_rows(Order::One, b, wi, wj, table),
        Order::Two => slope_rows(Order::Two, b, wi, wj, table),
    }
}
