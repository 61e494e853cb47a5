// The sums of a caller's columns, to the end of the shortest: NaN where the rule refuses them.
ghost use Rattle.std.specs.Prelude.{◌≡◌};
ghost use Rattle.common.specs.Outcome.{or_nan};
ghost use Rattle.algo.specs.Table.{differentiated, sum_rule};
ghost use Rattle.algo.specs.Joint.{share_rule};
ghost use Rattle.slopes.specs.Rows.{rows};

use crate::columns::powers_for;
use algo::{Order, Share, gated};
use joint::{Four, Pair, finished, four_sums, joint_sums};
use slopes::{Columns, slope_sum};

// Any of the six sums that are differentiated term by term.
pub fn raw_sum(a: Order, b: Order, vi: f64, vj: f64, table: Columns) -> f64
    ensures { result ≡ or_nan (sum_rule (differentiated a b) vi vj (rows table.entry)) }
{
    let wi = powers_for(vi, a, table.is);
    let wj = powers_for(vj, b, table.js);
    gated(vi, vj, slope_sum(a, b, &wi, &wj, table))
}

// Two sums of one item.
pub fn raw_pair(a: Order, s: Share, t: Share, vi: f64, vj: f64, table: Columns) -> Pair
    ensures { (result.first ≡ or_nan (share_rule a s vi vj (rows table.entry)))
        × (result.second ≡ or_nan (share_rule a t vi vj (rows table.entry))) }
{
    let wi = powers_for(vi, a, table.is);
    let wj = powers_for(vj, Order::Zero, table.js);
    let p = joint_sums(a, s, t, &wi, &wj, table);
    Pair {
        first: finished(s, vi, vj, p.first),
        second: finished(t, vi, vj, p.second),
    }
}

// All four of `polys_i_ii_ij_jj`.
pub fn raw_four(vi: f64, vj: f64, table: Columns) -> Four
    ensures { (result.i ≡ or_nan (share_rule Order.Zero Share.I vi vj (rows table.entry)))
        × (result.ii ≡ or_nan (share_rule Order.Zero Share.Ii vi vj (rows table.entry)))
        × (result.ij ≡ or_nan (share_rule Order.Zero Share.Ij vi vj (rows table.entry)))
        × (result.jj ≡ or_nan (share_rule Order.Zero Share.Jj vi vj (rows table.entry))) }
{
    let wi = powers_for(vi, Order::Zero, table.is);
    let wj = powers_for(vj, Order::Zero, table.js);
    let p = four_sums(&wi, &wj, table);
    Four {
        i: finished(Share::I, vi, vj, p.i),
        ii: finished(Share::Ii, vi, vj, p.ii),
        ij: finished(Share::Ij, vi, vj, p.ij),
        jj: finished(Share::Jj, vi, vj, p.jj),
    }
}
