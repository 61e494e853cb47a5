// The 25 properties at a T and a d, each by its name: the call by its number (crate by_number) under the promise of its own formula.
// Kept: 25 functions alike, since the names are the Rust's and each promises its own formula, with its own unit.
#![tactic(auto)]

ghost use Rattle.std.specs.Prelude.{◌≡◌};
ghost use Rattle.common.specs.Answer.{paper};
ghost use Rattle.properties.specs.Td.{Td2v, Td2h, Td2s, Td2u, Td2cv, Td2cp, Td2w, state_pressure};
ghost use Rattle.extended.specs.Ext.{Td2f, Td2g, Td2kt, Td2ec, Td2joule, Td2iJTC, Td2dvdpct, Td2dpdtcv, Td2dvdtcp, Td2e, Td2fi};
ghost use Rattle.extended_with_p.specs.WithP.{Td2z, Td2ks, Td2pc, Td2batap, Td2fu, Td2alfap};
ghost use Rattle.by_number.specs.Property.{called};

use by_number::Td_thermal_reg3;
use common::{
    Kelvin, KgPerM3, OALFAP, OBETAP, OCP, OCV, ODPDT, ODVDP, ODVDT, OE, OEC, OF, OFI, OFU, OG, OH,
    OIJTC, OJTC, OKS, OKT, OP, OPC, OS, OU, OV, OW, OZ, Refusal,
};

// Pressure, MPa. R7-97 table 31; table 33 has 25.5837018 at (650, 500). 4 where it lies outside its range.
pub fn Td2p_reg3(t: Kelvin, d: KgPerM3) -> Result<f64, Refusal>
    ensures { paper result ≡ called state_pressure t.0 d.0 }
{
    Td_thermal_reg3(t, d, OP)
}

// Specific volume, m3/kg.
pub fn Td2v_reg3(t: Kelvin, d: KgPerM3) -> Result<f64, Refusal>
    ensures { paper result ≡ called Td2v t.0 d.0 }
{
    Td_thermal_reg3(t, d, OV)
}

// Specific enthalpy, kJ/kg. R7-97 table 31; table 33 has 1863.43019 at (650, 500).
pub fn Td2h_reg3(t: Kelvin, d: KgPerM3) -> Result<f64, Refusal>
    ensures { paper result ≡ called Td2h t.0 d.0 }
{
    Td_thermal_reg3(t, d, OH)
}

// Specific entropy, kJ/(kg K). R7-97 table 31; table 33 has 4.05427273 at (650, 500).
pub fn Td2s_reg3(t: Kelvin, d: KgPerM3) -> Result<f64, Refusal>
    ensures { paper result ≡ called Td2s t.0 d.0 }
{
    Td_thermal_reg3(t, d, OS)
}

// Specific exergy as the Rust has it, kJ/kg.
pub fn Td2e_reg3(t: Kelvin, d: KgPerM3) -> Result<f64, Refusal>
    ensures { paper result ≡ called Td2e t.0 d.0 }
{
    Td_thermal_reg3(t, d, OE)
}

// Specific internal energy, kJ/kg. R7-97 table 31; table 33 has 1812.26279 at (650, 500).
pub fn Td2u_reg3(t: Kelvin, d: KgPerM3) -> Result<f64, Refusal>
    ensures { paper result ≡ called Td2u t.0 d.0 }
{
    Td_thermal_reg3(t, d, OU)
}

// Specific isobaric heat capacity, kJ/(kg K). R7-97 table 31; table 33 has 13.8935717 at (650, 500).
pub fn Td2cp_reg3(t: Kelvin, d: KgPerM3) -> Result<f64, Refusal>
    ensures { paper result ≡ called Td2cp t.0 d.0 }
{
    Td_thermal_reg3(t, d, OCP)
}

// Specific isochoric heat capacity, kJ/(kg K). R7-97 table 31.
pub fn Td2cv_reg3(t: Kelvin, d: KgPerM3) -> Result<f64, Refusal>
    ensures { paper result ≡ called Td2cv t.0 d.0 }
{
    Td_thermal_reg3(t, d, OCV)
}

// Speed of sound, m/s. R7-97 table 31; table 33 has 502.005554 at (650, 500).
pub fn Td2w_reg3(t: Kelvin, d: KgPerM3) -> Result<f64, Refusal>
    ensures { paper result ≡ called Td2w t.0 d.0 }
{
    Td_thermal_reg3(t, d, OW)
}

// Isentropic exponent.
pub fn Td2ks_reg3(t: Kelvin, d: KgPerM3) -> Result<f64, Refusal>
    ensures { paper result ≡ called Td2ks t.0 d.0 }
{
    Td_thermal_reg3(t, d, OKS)
}

// Specific Helmholtz free energy, kJ/kg.
pub fn Td2f_reg3(t: Kelvin, d: KgPerM3) -> Result<f64, Refusal>
    ensures { paper result ≡ called Td2f t.0 d.0 }
{
    Td_thermal_reg3(t, d, OF)
}

// Specific Gibbs free energy, kJ/kg.
pub fn Td2g_reg3(t: Kelvin, d: KgPerM3) -> Result<f64, Refusal>
    ensures { paper result ≡ called Td2g t.0 d.0 }
{
    Td_thermal_reg3(t, d, OG)
}

// Compressibility factor.
pub fn Td2z_reg3(t: Kelvin, d: KgPerM3) -> Result<f64, Refusal>
    ensures { paper result ≡ called Td2z t.0 d.0 }
{
    Td_thermal_reg3(t, d, OZ)
}

// Isobaric expansion coefficient, 1/K.
pub fn Td2ec_reg3(t: Kelvin, d: KgPerM3) -> Result<f64, Refusal>
    ensures { paper result ≡ called Td2ec t.0 d.0 }
{
    Td_thermal_reg3(t, d, OEC)
}

// Isothermal compressibility, 1/MPa.
pub fn Td2kt_reg3(t: Kelvin, d: KgPerM3) -> Result<f64, Refusal>
    ensures { paper result ≡ called Td2kt t.0 d.0 }
{
    Td_thermal_reg3(t, d, OKT)
}

// (∂v/∂T)_p, m3/(kg K).
pub fn Td2dvdtcp_reg3(t: Kelvin, d: KgPerM3) -> Result<f64, Refusal>
    ensures { paper result ≡ called Td2dvdtcp t.0 d.0 }
{
    Td_thermal_reg3(t, d, ODVDT)
}

// (∂v/∂p)_T, m3/(kg MPa).
pub fn Td2dvdpct_reg3(t: Kelvin, d: KgPerM3) -> Result<f64, Refusal>
    ensures { paper result ≡ called Td2dvdpct t.0 d.0 }
{
    Td_thermal_reg3(t, d, ODVDP)
}

// (∂p/∂T)_v, MPa/K.
pub fn Td2dpdtcv_reg3(t: Kelvin, d: KgPerM3) -> Result<f64, Refusal>
    ensures { paper result ≡ called Td2dpdtcv t.0 d.0 }
{
    Td_thermal_reg3(t, d, ODPDT)
}

// Isothermal throttling coefficient, a thousandth of (∂h/∂p)_T in kJ/(kg MPa), as the Rust has it.
pub fn Td2iJTC_reg3(t: Kelvin, d: KgPerM3) -> Result<f64, Refusal>
    ensures { paper result ≡ called Td2iJTC t.0 d.0 }
{
    Td_thermal_reg3(t, d, OIJTC)
}

// Joule-Thomson coefficient, K/MPa.
pub fn Td2joule_reg3(t: Kelvin, d: KgPerM3) -> Result<f64, Refusal>
    ensures { paper result ≡ called Td2joule t.0 d.0 }
{
    Td_thermal_reg3(t, d, OJTC)
}

// Isochoric pressure coefficient, 1/K.
pub fn Td2pc_reg3(t: Kelvin, d: KgPerM3) -> Result<f64, Refusal>
    ensures { paper result ≡ called Td2pc t.0 d.0 }
{
    Td_thermal_reg3(t, d, OPC)
}

// Isothermal stress coefficient, kg/m3.
pub fn Td2batap_reg3(t: Kelvin, d: KgPerM3) -> Result<f64, Refusal>
    ensures { paper result ≡ called Td2batap t.0 d.0 }
{
    Td_thermal_reg3(t, d, OBETAP)
}

// Fugacity coefficient as the Rust has it: exp(g/RT), with no ideal gas for reference.
pub fn Td2fi_reg3(t: Kelvin, d: KgPerM3) -> Result<f64, Refusal>
    ensures { paper result ≡ called Td2fi t.0 d.0 }
{
    Td_thermal_reg3(t, d, OFI)
}

// Fugacity as the Rust has it, MPa.
pub fn Td2fu_reg3(t: Kelvin, d: KgPerM3) -> Result<f64, Refusal>
    ensures { paper result ≡ called Td2fu t.0 d.0 }
{
    Td_thermal_reg3(t, d, OFU)
}

// Relative pressure coefficient, 1/K.
pub fn Td2alfap_reg3(t: Kelvin, d: KgPerM3) -> Result<f64, Refusal>
    ensures { paper result ≡ called Td2alfap t.0 d.0 }
{
    Td_thermal_reg3(t, d, OALFAP)
}
