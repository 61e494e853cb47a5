// How large a number is: the one test by which a fast form knows that no power of its base, up to 64 either way, leaves the normal range,
// and the look at a power on its way.
#![tactic(auto)]

ghost use Rattle.std.specs.Prelude.{◌≡◌};
ghost use Rattle.sizes.specs.Usual.{usual_base};
ghost use Rattle.sizes.specs.Lost.{looked};

// Whether a^2 lies from 2^-28 to 2^28.
pub fn usual(a: f64) -> bool
    ensures { result ≡ usual_base a }
{
    let square = a * a;
    3.725290298461914e-9 <= square && square <= 268435456.0
}

// An r on the way to a power of a, or a NaN where a is not 0 and r is below the smallest normal f64 in size.
pub fn look(a: f64, r: f64) -> f64
    ensures { result ≡ looked a r }
{
    if -f64::MIN_POSITIVE < r && r < f64::MIN_POSITIVE && a != 0.0 {
        f64::NAN
    } else {
        r
    }
}
