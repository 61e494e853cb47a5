// A p, T or d of the state, worked out by a call and tested where it comes out. A number that is lost is refused with 5, one outside
// its range with 4.
ghost use Rattle.std.specs.Prelude.{◌≡◌};
ghost use Rattle.common.specs.Outcome.{check, then};
ghost use Rattle.common.specs.Answer.{paper};
ghost use Rattle.record.specs.State.{tested, pressure_of, temperature_of, density_of, volume_of};

use common::{
    D_RANGE, Interval, Kelvin, KgPerM3, M3PerKg, MPa, P_RANGE, Refusal, T_RANGE, in_d, over, settle,
};

fn settle_in(x: f64, range: Interval) -> Result<f64, Refusal>
    ensures { paper result ≡ then (check x) (tested range.from range.to) }
{
    settle(x)?;
    if !range.contains(x) {
        return Err(Refusal::State);
    }
    Ok(x)
}

// A pressure.
pub fn settle_p(p: MPa) -> Result<f64, Refusal>
    ensures { paper result ≡ pressure_of (check p.0) }
{
    settle_in(p.0, P_RANGE)
}

// A temperature.
pub fn settle_t(t: Kelvin) -> Result<f64, Refusal>
    ensures { paper result ≡ temperature_of (check t.0) }
{
    settle_in(t.0, T_RANGE)
}

// The density in kg/m3 of a volume. What is in its range is finite, and so is the volume of it: nothing else need be looked at then.
pub fn density(v: M3PerKg) -> Result<f64, Refusal>
    ensures { paper result ≡ density_of (check v.0) }
{
    let d = KgPerM3(1.0 / v.0);
    if in_d(d) {
        return Ok(d.0);
    }
    settle_in(over(1.0, v.0), D_RANGE)
}

// A volume whose density is in its range.
pub fn settle_v(v: M3PerKg) -> Result<f64, Refusal>
    ensures { paper result ≡ volume_of (check v.0) }
{
    density(v)?;
    Ok(v.0)
}
