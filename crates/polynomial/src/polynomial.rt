// The calls of algo/polynomial.rs and algo/polynomial_steps.rs, each total: columns of unequal length are refused with 7, and an
// exponent that the power rule does not take, a vi or vj that is not finite and any step that is not, with 5.
// The Rust's `steps` only tile a loop over the whole table, so they are dropped.
ghost use Rattle.std.specs.Prelude.{◌≡◌, ◌&&◌, eqb, length};
ghost use Rattle.common.specs.Outcome.{check};
ghost use Rattle.common.specs.Answer.{paper};
ghost use Rattle.algo.specs.Table.{differentiated, term, term_i, term_ii, term_ij, term_j, term_jj};
ghost use Rattle.polynomial.specs.Columns.{one_length, table_rule, pair_of, four_of, pair_table, four_table};

use algo::{Order, Share};
use column_sums::{raw_four, raw_pair, raw_sum};
use common::{Refusal, settle};
use joint::{Four, Pair};
use slopes::Columns;

// Whether the columns are of one length.
fn same_lengths(table: Columns) -> bool
    ensures { result ≡ (eqb (length table.entry.is.now) (length table.entry.ns.now) && eqb (length table.entry.js.now) (length table.entry.ns.now)) }
{
    table.is.len() == table.ns.len() && table.js.len() == table.ns.len()
}

fn check_lengths(table: Columns) -> Result<(), Refusal>
    ensures { paper result ≡ one_length table.entry.is.now table.entry.js.now table.entry.ns.now }
{
    if !same_lengths(table) {
        return Err(Refusal::Columns);
    }
    Ok(())
}

fn table_sum(a: Order, b: Order, vi: f64, vj: f64, table: Columns) -> Result<f64, Refusal>
    ensures { paper result ≡ table_rule (differentiated a b) vi vj table.entry.is.now table.entry.js.now table.entry.ns.now }
{
    check_lengths(table)?;
    settle(raw_sum(a, b, vi, vj, table))
}

fn settle_pair(p: Pair) -> Result<Pair, Refusal>
    ensures { paper result ≡ pair_of (check p.first) (check p.second) }
{
    Ok(Pair {
        first: settle(p.first)?,
        second: settle(p.second)?,
    })
}

fn table_pair(
    a: Order,
    s: Share,
    t: Share,
    vi: f64,
    vj: f64,
    table: Columns,
) -> Result<Pair, Refusal>
    ensures { paper result ≡ pair_table a s t vi vj table.entry.is.now table.entry.js.now table.entry.ns.now }
{
    check_lengths(table)?;
    settle_pair(raw_pair(a, s, t, vi, vj, table))
}

// Kept: apart from `settle_pair`, since each names the sums of its own struct in their order.
fn settle_four(p: Four) -> Result<Four, Refusal>
    ensures { paper result ≡ four_of (check p.i) (check p.ii) (check p.ij) (check p.jj) }
{
    Ok(Four {
        i: settle(p.i)?,
        ii: settle(p.ii)?,
        ij: settle(p.ij)?,
        jj: settle(p.jj)?,
    })
}

// The calls. Kept: vi, vj and the three columns are parameters of each, the Rust's in its order.

// n*vi^I*vj^J
pub fn poly_powi(vi: f64, vj: f64, is: &[i32], js: &[i32], ns: &[f64]) -> Result<f64, Refusal>
    ensures { paper result ≡ table_rule term vi vj is.now js.now ns.now }
{
    table_sum(Order::Zero, Order::Zero, vi, vj, Columns { is, js, ns })
}

// Differentiated by vi.
pub fn poly_i_powi(vi: f64, vj: f64, is: &[i32], js: &[i32], ns: &[f64]) -> Result<f64, Refusal>
    ensures { paper result ≡ table_rule term_i vi vj is.now js.now ns.now }
{
    table_sum(Order::One, Order::Zero, vi, vj, Columns { is, js, ns })
}

// Differentiated twice by vi.
pub fn poly_ii_powi(vi: f64, vj: f64, is: &[i32], js: &[i32], ns: &[f64]) -> Result<f64, Refusal>
    ensures { paper result ≡ table_rule term_ii vi vj is.now js.now ns.now }
{
    table_sum(Order::Two, Order::Zero, vi, vj, Columns { is, js, ns })
}

// Differentiated by vi and vj.
pub fn poly_ij_powi(vi: f64, vj: f64, is: &[i32], js: &[i32], ns: &[f64]) -> Result<f64, Refusal>
    ensures { paper result ≡ table_rule term_ij vi vj is.now js.now ns.now }
{
    table_sum(Order::One, Order::One, vi, vj, Columns { is, js, ns })
}

// Differentiated by vj.
pub fn poly_j_powi(vi: f64, vj: f64, is: &[i32], js: &[i32], ns: &[f64]) -> Result<f64, Refusal>
    ensures { paper result ≡ table_rule term_j vi vj is.now js.now ns.now }
{
    table_sum(Order::Zero, Order::One, vi, vj, Columns { is, js, ns })
}

// Differentiated twice by vj.
pub fn poly_jj_powi(vi: f64, vj: f64, is: &[i32], js: &[i32], ns: &[f64]) -> Result<f64, Refusal>
    ensures { paper result ≡ table_rule term_jj vi vj is.now js.now ns.now }
{
    table_sum(Order::Zero, Order::Two, vi, vj, Columns { is, js, ns })
}

// The sum, and differentiated by vj.
pub fn polys_0_j_powi(vi: f64, vj: f64, is: &[i32], js: &[i32], ns: &[f64]) -> Result<Pair, Refusal>
    ensures { paper result ≡ pair_table Order.Zero Share.Whole Share.J vi vj is.now js.now ns.now }
{
    table_pair(
        Order::Zero,
        Share::Whole,
        Share::J,
        vi,
        vj,
        Columns { is, js, ns },
    )
}

// Differentiated by vi, and by vj.
pub fn polys_i_j_powi(vi: f64, vj: f64, is: &[i32], js: &[i32], ns: &[f64]) -> Result<Pair, Refusal>
    ensures { paper result ≡ pair_table Order.Zero Share.I Share.J vi vj is.now js.now ns.now }
{
    table_pair(
        Order::Zero,
        Share::I,
        Share::J,
        vi,
        vj,
        Columns { is, js, ns },
    )
}

// Differentiated by vi, and by vi and vj.
pub fn polys_i_ij_powi(
    vi: f64,
    vj: f64,
    is: &[i32],
    js: &[i32],
    ns: &[f64],
) -> Result<Pair, Refusal>
    ensures { paper result ≡ pair_table Order.One Share.Whole Share.J vi vj is.now js.now ns.now }
{
    table_pair(
        Order::One,
        Share::Whole,
        Share::J,
        vi,
        vj,
        Columns { is, js, ns },
    )
}

// Differentiated by vi, and twice by vi.
pub fn polys_i_ii_powi(
    vi: f64,
    vj: f64,
    is: &[i32],
    js: &[i32],
    ns: &[f64],
) -> Result<Pair, Refusal>
    ensures { paper result ≡ pair_table Order.One Share.Whole Share.IAgain vi vj is.now js.now ns.now }
{
    table_pair(
        Order::One,
        Share::Whole,
        Share::IAgain,
        vi,
        vj,
        Columns { is, js, ns },
    )
}

// Differentiated by vi, twice by vi, by vi and vj, and twice by vj.
pub fn polys_i_ii_ij_jj_powi(
    vi: f64,
    vj: f64,
    is: &[i32],
    js: &[i32],
    ns: &[f64],
) -> Result<Four, Refusal>
    ensures { paper result ≡ four_table vi vj is.now js.now ns.now }
{
    let table = Columns { is, js, ns };
    check_lengths(table)?;
    settle_four(raw_four(vi, vj, table))
}
