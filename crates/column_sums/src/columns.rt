// How far the exponents of a column go, so that no more powers are worked than it takes.
ghost use Rattle.std.specs.Prelude.{◌≡◌, ◌^◌, ◌≤◌, replicate};
ghost use Rattle.common.specs.Outcome.{zero_f};
ghost use Rattle.powers.specs.Powers.{Powers};
ghost use Rattle.column_sums.specs.Farthest.{steps, up_of, down_of, farthest, ups, downs};

use algo::Order;
use powers::fill_powers;

#[derive(Clone, Copy)]
struct Span {
    pub up: u32,
    pub down: u32,
}

fn step_count(d: Order) -> u32
    ensures { result ≡ steps d }
{
    d as u32
}

fn span_of(column: &[i32]) -> Span
    ensures { (result.up ≡ farthest up_of 0 column.now) × (result.down ≡ farthest down_of 0 column.now) × (result.down ≤ 2 ^ 31) }
{
    let mut top = 0i32;
    let mut low = 0i32;
    for n in column {
        top = top.max(*n);
        low = low.min(*n);
    }
    Span {
        up: top.unsigned_abs(),
        down: low.unsigned_abs(),
    }
}

// The powers of v that a column names, differentiated so often; zeros in all other places.
pub fn powers_for(v: f64, d: Order, column: &[i32]) -> [f64; 129]
    ensures { Powers v (replicate 129 zero_f) result (ups d column.now) (downs d column.now) }
{
    let mut w = [0.0; 129];
    let span = span_of(column);
    let s = step_count(d);
    fill_powers(v, span.up.saturating_sub(s), span.down + s, &mut w);
    w
}
