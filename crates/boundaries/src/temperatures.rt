// The twelve boundaries: a temperature at a pressure. One walk serves every row, by powers of two kinds: by the rule, or bare, with no look at them, which is
// quicker, and the same where no power is lost.
// Kept: which kind is a flag that the calls hand on. As a const parameter (tried) it leaves `by_row` out of line, with a place that the compiler does not know: a
// quarter more instructions for a boundary in ln p.
ghost use Rattle.std.specs.Prelude.{◌≡◌};
ghost use Rattle.common.specs.Answer.{paper};
ghost use Rattle.boundaries.specs.Boundary.{tabled, row_at, form_of, boundary_rule};
ghost use Rattle.boundaries.specs.Raw.{place_of, argument_of, term_of, row_of, raw_argument, raw_term, raw_sum, raw_form, raw_at, bare_at};
ghost use Rattle.boundaries.specs.declared.Boundary.TheVariants.{Ef};

use crate::Boundary;
use crate::table::{Place, Row, Term, row_at};
use common::{MPa, P_RANGE, Refusal, check_only, settle};
use inverses::raw_logarithm;
use rules::{bare_power, raw_power};
use sizes::usual;

// What a row's sum is in.
fn argument(ln: bool, p: f64) -> f64
    ensures { result ≡ raw_argument (argument_of ln) p }
{
    if ln { raw_logarithm(p) } else { p }
}

// n * x^I
fn worked(bare: bool, t: Term, x: f64) -> f64
    ensures { result ≡ raw_term bare x (term_of t) }
{
    if bare {
        t.1 * bare_power(x, t.0)
    } else {
        t.1 * raw_power(x, t.0)
    }
}

// The walk over a row: from +0.0 on its terms are added in their order.
fn walk(row: Row, bare: bool, x: f64) -> f64
    ensures { result ≡ raw_sum bare (row_of row) x }
{
    let mut sum = 0.0;
    for t in row.terms {
        sum += worked(bare, t, x);
    }
    match row.fifth {
        None => sum,
        Some(t) => sum + worked(bare, t, x),
    }
}

// The row at place k walked at x. The walk is called from here alone, by a place: so the compiler writes it out for each row that is asked for.
fn walk_at(k: Place, bare: bool, x: f64) -> f64
    ensures { result ≡ raw_sum bare (row_at (place_of k)) x }
{
    walk(row_at(k), bare, x)
}

// The temperature by the row at place k. Where bare powers are not asked for, they are taken all the same at a usual argument, at which they are the rule's.
fn by_row(k: Place, bare: bool, p: MPa) -> f64
    ensures { result ≡ raw_form bare (tabled (place_of k)) p.0 }
{
    let x = argument(row_at(k).ln, p.0);
    if bare || usual(x) {
        walk_at(k, true, x)
    } else {
        walk_at(k, false, x)
    }
}

// 3ef: equation 3; 713.9593992 K at 40 MPa.
fn t_3ef(p: MPa) -> f64
    ensures { result ≡ raw_at Ef p.0 }
{
    3.727888004 * (p.0 - 22.064) + 647.096
}

// The temperature by the boundary's name.
fn number(b: Boundary, bare: bool, p: MPa) -> f64
    ensures { result ≡ raw_form bare (form_of b) p.0 }
{
    match b {
        Boundary::Ab => by_row(Place::Ab, bare, p),
        Boundary::Cd => by_row(Place::Cd, bare, p),
        Boundary::Ef => t_3ef(p),
        Boundary::Gh => by_row(Place::Gh, bare, p),
        Boundary::Ij => by_row(Place::Ij, bare, p),
        Boundary::Jk => by_row(Place::Jk, bare, p),
        Boundary::Mn => by_row(Place::Mn, bare, p),
        Boundary::Op => by_row(Place::Op, bare, p),
        Boundary::Qu => by_row(Place::Qu, bare, p),
        Boundary::Rx => by_row(Place::Rx, bare, p),
        Boundary::Uv => by_row(Place::Uv, bare, p),
        Boundary::Wx => by_row(Place::Wx, bare, p),
    }
}

// The temperature at any p, for calls that test it themselves: a number that is lost travels as itself.
pub fn raw_boundary(b: Boundary, p: MPa) -> f64
    ensures { result ≡ raw_at b p.0 }
{
    number(b, false, p)
}

// The same by bare powers: at a p from 19 to 25 MPa no power of p is lost, nor is a polynomial in it (proofs/Kept).
pub fn bare_boundary(b: Boundary, p: MPa) -> f64
    ensures { result ≡ bare_at b p.0 }
{
    number(b, true, p)
}

// The temperature at the boundary in K.
pub fn T_atRegionBoundary(p: MPa, b: Boundary) -> Result<f64, Refusal>
    ensures { paper result ≡ boundary_rule b p.0 }
{
    check_only(p.0, P_RANGE)?;
    settle(raw_boundary(b, p))
}
