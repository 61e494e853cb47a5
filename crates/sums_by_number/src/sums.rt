// Which number names which sum, and what each comes to on a table that is lent by its columns.
ghost use Rattle.std.specs.Prelude.{◌≡◌};
ghost use Rattle.sums_by_number.specs.Sums.{sum_of, reply_rule, asked_rule};

use crate::Sum;
use crate::shape::{four_numbers, two_numbers};
use reply::{Reply, number_reply, refused};

// The refusal of a sum or a table that does not exist.
// Kept: apart from number_entries', which is 255 too: that is another program's, of what does not exist there.
pub const UNKNOWN: u8 = 255;

const SUMS: [Sum; 11] = [
    Sum::Poly,
    Sum::PolyI,
    Sum::PolyIi,
    Sum::PolyIj,
    Sum::PolyJ,
    Sum::PolyJj,
    Sum::Polys0J,
    Sum::PolysIJ,
    Sum::PolysIIj,
    Sum::PolysIIi,
    Sum::PolysIIiIjJj,
];

// The sum that a number names, if any.
// Kept: an Option and no TryFrom, since None says all there is to say of a number that names none: an error type would say no more.
pub fn sum_of(number: u8) -> Option<Sum>
    ensures { result ≡ sum_of number }
{
    SUMS.get(usize::from(number)).copied()
}

// Kept: three slices and no `Columns` of slopes: the sums take a caller's columns as lent, of unequal lengths too, which they refuse.
#[tactic(auto, unfolding(crate::specs::Sums::reply_rule))]
fn named(sum: Sum, vi: f64, vj: f64, is: &[i32], js: &[i32], ns: &[f64]) -> Reply
    ensures { result ≡ reply_rule sum vi vj is.now js.now ns.now }
{
    match sum {
        Sum::Poly => number_reply(polynomial::poly_powi(vi, vj, is, js, ns)),
        Sum::PolyI => number_reply(polynomial::poly_i_powi(vi, vj, is, js, ns)),
        Sum::PolyIi => number_reply(polynomial::poly_ii_powi(vi, vj, is, js, ns)),
        Sum::PolyIj => number_reply(polynomial::poly_ij_powi(vi, vj, is, js, ns)),
        Sum::PolyJ => number_reply(polynomial::poly_j_powi(vi, vj, is, js, ns)),
        Sum::PolyJj => number_reply(polynomial::poly_jj_powi(vi, vj, is, js, ns)),
        Sum::Polys0J => two_numbers(polynomial::polys_0_j_powi(vi, vj, is, js, ns)),
        Sum::PolysIJ => two_numbers(polynomial::polys_i_j_powi(vi, vj, is, js, ns)),
        Sum::PolysIIj => two_numbers(polynomial::polys_i_ij_powi(vi, vj, is, js, ns)),
        Sum::PolysIIi => two_numbers(polynomial::polys_i_ii_powi(vi, vj, is, js, ns)),
        Sum::PolysIIiIjJj => four_numbers(polynomial::polys_i_ii_ij_jj_powi(vi, vj, is, js, ns)),
    }
}

// What a sum comes to, and the refusal where a number names none.
pub fn work(sum: Option<Sum>, vi: f64, vj: f64, is: &[i32], js: &[i32], ns: &[f64]) -> Reply
    ensures { result ≡ asked_rule sum vi vj is.now js.now ns.now }
{
    match sum {
        Some(sum) => named(sum, vi, vj, is, js, ns),
        None => refused(UNKNOWN),
    }
}
