// From two numbers, or their bits, to a point.
ghost use Rattle.std.specs.Prelude.{◌≡◌};
ghost use Rattle.exchange_writer.specs.Point.{point_at, point_of};

use crate::Point;
use buffer::float_of;
use common::{KJPerKg, KJPerKgK, Kelvin, KgPerM3, MPa};
use exchange_record::{Asked, Pair};

// The point of two numbers, each under the unit that its pair says.
pub fn point_at(pair: Pair, a: f64, b: f64) -> Point
    ensures { result ≡ point_at pair a b }
{
    match pair {
        Pair::PT => Point::PT(MPa(a), Kelvin(b)),
        Pair::TD => Point::TD(Kelvin(a), KgPerM3(b)),
        Pair::PH => Point::PH(MPa(a), KJPerKg(b)),
        Pair::PS => Point::PS(MPa(a), KJPerKgK(b)),
        Pair::HS => Point::HS(KJPerKg(a), KJPerKgK(b)),
    }
}

// The point of what was read: the numbers of its bits, each under its unit.
impl From<Asked> for Point {
    ghost from_gives = { λ q r. r ≡ point_of q };

    fn from(q: Asked) -> Point {
        point_at(q.pair, float_of(q.a), float_of(q.b))
    }
}
