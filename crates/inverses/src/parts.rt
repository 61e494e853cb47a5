// An f64 above 0 taken apart, for the root and the logarithm.
ghost use Rattle.std.specs.Prelude.{◌≡◌, ◌*◌, ◌^◌, ◌<◌, ◌≤◌, T};
ghost use Rattle.inverses.specs.Units.{in_units, positive};

// A number above 0 by its 53 leading binary digits: x * 2^1126 is d * 2^e.
#[derive(Clone, Copy)]
pub struct Parts {
    pub d: u64,
    pub e: u64,
}

pub fn unpack(x: f64) -> Parts
    requires { T (positive x) }
    ensures { (2 ^ 52 ≤ result.d) × (result.d < 2 ^ 53) × (result.e < 2098) × (result.d * 2 ^ result.e ≡ in_units x * 2 ^ 52) }
{
    let b = x.to_bits();
    let field = b / 0x10_0000_0000_0000;
    if field == 0 {
        let z = b.leading_zeros() - 11;
        Parts {
            d: b << z,
            e: 52 - z as u64,
        }
    } else {
        Parts {
            d: b % 0x10_0000_0000_0000 + 0x10_0000_0000_0000,
            e: field + 51,
        }
    }
}
