// φ and its derivatives: R7-97(2012), equation 28 and table 32, by the sums over table 30. Here, in order: table 30, its three kinds of sums,
// φ and each derivative by itself, and those that the properties need together by one joint sum. Each gives its number, or a NaN where any step
// is not finite; each divisor is tested before it could hide such a step.
// Kept: δ and τ are two parameters of each call, as in the Rust and in table 32.
ghost use Rattle.common.specs.Outcome.{check};
ghost use Rattle.common.specs.Number.{Number};
ghost use Rattle.helmholtz.specs.Hfe.{slope, share, phi, phi_delta, phi_deltadelta, phi_tau, phi_tautau, phi_deltatau, joint_phi, joint_tau, joint_delta, four_delta, four_deltadelta, four_deltatau, four_tautau};

use algo::{Order, Share, gated};
use common::{finite_or_nan, over};
use inverses::raw_logarithm;
use joint::{Four, Pair, finished, four_sums, joint_sums};
use powers::fill_powers;
use slopes::{Columns, slope_sum};

// Table 30, row 1, and rows 2 to 40 by column.
const N1: f64 = 0.10658070028513e1;

const IS: [i32; 39] = [
    0, 0, 0, 0, 0, 0, 0, 1, 1, 1, 1, 2, 2, 2, 2, 2, 2, 3, 3, 3, 3, 3, 4, 4, 4, 4, 5, 5, 5, 6, 6, 6,
    7, 8, 9, 9, 10, 10, 11,
];

const JS: [i32; 39] = [
    0, 1, 2, 7, 10, 12, 23, 2, 6, 15, 17, 0, 2, 6, 7, 22, 26, 0, 2, 4, 16, 26, 0, 2, 4, 26, 1, 3,
    26, 0, 2, 26, 2, 26, 2, 26, 0, 1, 26,
];

const NS: [f64; 39] = [
    -0.15732845290239e2,
    0.20944396974307e2,
    -0.76867707878716e1,
    0.26185947787954e1,
    -0.28080781148620e1,
    0.12053369696517e1,
    -0.84566812812502e-2,
    -0.12654315477714e1,
    -0.11524407806681e1,
    0.88521043984318,
    -0.64207765181607,
    0.38493460186671,
    -0.85214708824206,
    0.48972281541877e1,
    -0.30502617256965e1,
    0.39420536879154e-1,
    0.12558408424308,
    -0.27999329698710,
    0.13899799569460e1,
    -0.20189915023570e1,
    -0.82147637173963e-2,
    -0.47596035734923,
    0.43984074473500e-1,
    -0.44476435428739,
    0.90572070719733,
    0.70522450087967,
    0.10770512626332,
    -0.32913623258954,
    -0.50871062041158,
    -0.22175400873096e-1,
    0.94260751665092e-1,
    0.16436278447961,
    -0.13503372241348e-1,
    -0.14834345352472e-1,
    0.57922953628084e-3,
    0.32308904703711e-2,
    0.80964802996215e-4,
    -0.16557679795037e-3,
    -0.44923899061815e-4,
];

const TABLE: Columns = Columns {
    is: &IS,
    js: &JS,
    ns: &NS,
};

// Kept: `sum`, `pair` and `four` have the form of column_sums' `raw_sum`, `raw_pair` and `raw_four`: the reach of table 30's powers is constant here,
// and of a caller's columns it is looked for there; a reach handed over would be two more arguments of each call and no fewer lines.
// A sum by itself, its terms differentiated so often by δ and by τ. The exponents go from 0 to 11 and to 26, and 2 down where a term is differentiated twice.
fn sum(a: Order, b: Order, delta: f64, tau: f64) -> f64
    ensures { Number (slope a b (check delta) (check tau)) result }
{
    let mut wi = [0.0; 129];
    let mut wj = [0.0; 129];
    fill_powers(delta, 11, 2, &mut wi);
    fill_powers(tau, 26, 2, &mut wj);
    gated(delta, tau, slope_sum(a, b, &wi, &wj, TABLE))
}

// Two sums that share their terms.
fn pair(s: Share, t: Share, delta: f64, tau: f64) -> Pair
    ensures { Number (share s (check delta) (check tau)) result.first × Number (share t (check delta) (check tau)) result.second }
{
    let mut wi = [0.0; 129];
    let mut wj = [0.0; 129];
    fill_powers(delta, 11, 0, &mut wi);
    fill_powers(tau, 26, 0, &mut wj);
    let p = joint_sums(Order::Zero, s, t, &wi, &wj, TABLE);
    Pair {
        first: finished(s, delta, tau, p.first),
        second: finished(t, delta, tau, p.second),
    }
}

// Four sums that share their terms.
fn four(delta: f64, tau: f64) -> Four
    ensures { Number (share Share.I (check delta) (check tau)) result.i × Number (share Share.Ii (check delta) (check tau)) result.ii
        × Number (share Share.Ij (check delta) (check tau)) result.ij × Number (share Share.Jj (check delta) (check tau)) result.jj }
{
    let mut wi = [0.0; 129];
    let mut wj = [0.0; 129];
    fill_powers(delta, 11, 0, &mut wi);
    fill_powers(tau, 26, 0, &mut wj);
    let p = four_sums(&wi, &wj, TABLE);
    Four {
        i: finished(Share::I, delta, tau, p.i),
        ii: finished(Share::Ii, delta, tau, p.ii),
        ij: finished(Share::Ij, delta, tau, p.ij),
        jj: finished(Share::Jj, delta, tau, p.jj),
    }
}

// Kept: a function of one line for each derivative, by the Rust's names.
pub fn phi_reg3(delta: f64, tau: f64) -> f64
    ensures { Number (phi (check delta) (check tau)) result }
{
    finite_or_nan(N1 * raw_logarithm(delta) + sum(Order::Zero, Order::Zero, delta, tau))
}

pub fn phi_delta_reg3(delta: f64, tau: f64) -> f64
    ensures { Number (phi_delta (check delta) (check tau)) result }
{
    finite_or_nan(over(N1, delta) + sum(Order::One, Order::Zero, delta, tau))
}

pub fn phi_deltadelta_reg3(delta: f64, tau: f64) -> f64
    ensures { Number (phi_deltadelta (check delta) (check tau)) result }
{
    finite_or_nan(over(over(-N1, delta), delta) + sum(Order::Two, Order::Zero, delta, tau))
}

pub fn phi_tau_reg3(delta: f64, tau: f64) -> f64
    ensures { Number (phi_tau (check delta) (check tau)) result }
{
    sum(Order::Zero, Order::One, delta, tau)
}

pub fn phi_tautau_reg3(delta: f64, tau: f64) -> f64
    ensures { Number (phi_tautau (check delta) (check tau)) result }
{
    sum(Order::Zero, Order::Two, delta, tau)
}

pub fn phi_deltatau_reg3(delta: f64, tau: f64) -> f64
    ensures { Number (phi_deltatau (check delta) (check tau)) result }
{
    sum(Order::One, Order::One, delta, tau)
}

// φ and φ_τ by one sum.
#[derive(Clone, Copy)]
pub struct PhiTau {
    pub phi: f64,
    pub tau: f64,
}

pub fn polys_0_j_powi_reg3(delta: f64, tau: f64) -> PhiTau
    ensures { Number (joint_phi (check delta) (check tau)) result.phi × Number (joint_tau (check delta) (check tau)) result.tau }
{
    let joint = pair(Share::Whole, Share::J, delta, tau);
    PhiTau {
        phi: finite_or_nan(joint.first + N1 * raw_logarithm(delta)),
        tau: joint.second,
    }
}

// φ_δ and φ_τ by one sum. Kept: of `PhiTau`'s shape, but its first number is another one, which its name says.
#[derive(Clone, Copy)]
pub struct DeltaTau {
    pub delta: f64,
    pub tau: f64,
}

pub fn polys_i_j_powi_reg3(delta: f64, tau: f64) -> DeltaTau
    ensures { Number (joint_delta (check delta) (check tau)) result.delta × Number (joint_tau (check delta) (check tau)) result.tau }
{
    let joint = pair(Share::I, Share::J, delta, tau);
    DeltaTau {
        delta: finite_or_nan(joint.first + over(N1, delta)),
        tau: joint.second,
    }
}

// φ_δ, φ_δδ, φ_δτ and φ_ττ by one sum.
#[derive(Clone, Copy)]
pub struct Slopes {
    pub delta: f64,
    pub deltadelta: f64,
    pub deltatau: f64,
    pub tautau: f64,
}

pub fn polys_i_ii_ij_jj_powi_reg3(delta: f64, tau: f64) -> Slopes
    ensures { Number (four_delta (check delta) (check tau)) result.delta × Number (four_deltadelta (check delta) (check tau)) result.deltadelta
        × Number (four_deltatau (check delta) (check tau)) result.deltatau × Number (four_tautau (check delta) (check tau)) result.tautau }
{
    let joint = four(delta, tau);
    Slopes {
        delta: finite_or_nan(over(N1, delta) + joint.i),
        deltadelta: finite_or_nan(over(over(-N1, delta), delta) + joint.ii),
        deltatau: joint.ij,
        tautau: joint.jj,
    }
}
