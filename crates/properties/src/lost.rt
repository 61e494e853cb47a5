// A number that is not finite is lost, and so is all that is worked after it.
ghost use Rattle.std.specs.Prelude.{◌≡◌};
ghost use Rattle.common.specs.Formula.{lost_or};

use common::is_finite;

// y, which is worked after x: x where that is lost.
pub fn lost_or(x: f64, y: f64) -> f64
    ensures { result ≡ lost_or x y }
{
    if is_finite(x) { y } else { x }
}
