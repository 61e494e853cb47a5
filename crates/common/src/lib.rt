// What every layer shares: the units, the refusals and what an answer says, the ranges and the constants.
// What each answer means is in specs/Answer.antt, the ranges in specs/Range.antt, the constants in specs/Constant.antt, the property numbers in
// specs/Property.antt.
#![tactic(auto)]

ghost use Rattle.std.specs.Prelude.{◌≡◌};
ghost use Rattle.common.specs.Outcome.{finite, check, or_nan, number_in};
ghost use Rattle.common.specs.Formula.{size_of, raw_over};
ghost use Rattle.common.specs.Answer.{number_of, paper};
ghost use Rattle.common.specs.Range.{within, only_rule, pair_rule, Td_box, hs_box, pT_box, ph_box, ps_box};
ghost use Rattle.common.specs.Property.{property_numbers};
ghost use Rattle.common.specs.Constant.{printed, p_range_from, p_range_to, t_range_from, t_range_to, d_range_from, d_range_to};

// A pressure.
#[derive(Clone, Copy, Debug, PartialEq)]
pub struct MPa(pub f64);

// A temperature.
#[derive(Clone, Copy, Debug, PartialEq)]
pub struct Kelvin(pub f64);

// A density.
#[derive(Clone, Copy, Debug, PartialEq)]
pub struct KgPerM3(pub f64);

// A volume.
#[derive(Clone, Copy, Debug, PartialEq)]
pub struct M3PerKg(pub f64);

// An enthalpy.
#[derive(Clone, Copy, Debug, PartialEq)]
pub struct KJPerKg(pub f64);

// An entropy.
#[derive(Clone, Copy, Debug, PartialEq)]
pub struct KJPerKgK(pub f64);

// Why a call is refused. Each case has the number that a caller is told; `number_of` has them for the proofs.
#[derive(Clone, Copy, Debug, PartialEq, Eq)]
pub enum Refusal {
    NotFinite = 1,
    First = 2,
    Second = 3,
    State = 4,
    Step = 5,
    Property = 6,
    Columns = 7,
    Border = 8,
    Unfound = 15,
}

impl From<Refusal> for u8 {
    ghost from_gives = { λ k r. r ≡ number_of k };

    fn from(k: Refusal) -> u8 {
        k as u8
    }
}

// An interval, both ends of which count as inside. Kept: std's RangeInclusive does not copy, and its ends are no fields of a constant.
#[derive(Clone, Copy, Debug, PartialEq)]
pub struct Interval {
    pub from: f64,
    pub to: f64,
}

impl Interval {
    pub fn contains(self, x: f64) -> bool
        ensures { result ≡ within self.from self.to x }
    {
        self.from <= x && x <= self.to
    }
}

// The box.
pub const P_RANGE: Interval = Interval {
    from: 16.529,
    to: 100.0,
};

pub const T_RANGE: Interval = Interval {
    from: 623.15,
    to: 863.15,
};

pub const D_RANGE: Interval = Interval {
    from: 100.0,
    to: 800.0,
};

pub const H_RANGE: Interval = Interval {
    from: 1500.0,
    to: 2900.0,
};

pub const S_RANGE: Interval = Interval { from: 3.3, to: 5.3 };

// Where p and T lie on the saturation line, from the box's own ends on.
pub const P_SATURATED: Interval = Interval {
    from: P_RANGE.from,
    to: 22.064,
};

pub const T_SATURATED: Interval = Interval {
    from: T_RANGE.from,
    to: 647.096,
};

// common/constant.rs
pub const P_TOL: f64 = 1.0e-15;

pub const T_TOL: f64 = 1.0e-5;

pub const RGAS_WATER: f64 = 0.461526;

pub const TC_WATER: f64 = 647.096;

pub const PC_WATER: f64 = 22.064;

pub const DC_WATER: f64 = 322.0;

pub const SC_WATER: f64 = 4.41202148223476;

pub const TT: f64 = 273.16;

// common/property_id.rs: the 25 numbers of the properties at a (T,d).
// Kept: whole numbers, which are the Rust's and the C interface's.
pub const OP: i32 = 0;

pub const OV: i32 = 3;

pub const OH: i32 = 4;

pub const OS: i32 = 5;

pub const OE: i32 = 6;

pub const OU: i32 = 7;

pub const OCP: i32 = 8;

pub const OCV: i32 = 9;

pub const OW: i32 = 10;

pub const OKS: i32 = 11;

pub const OF: i32 = 12;

pub const OG: i32 = 13;

pub const OZ: i32 = 14;

pub const OEC: i32 = 17;

pub const OKT: i32 = 18;

pub const ODVDT: i32 = 19;

pub const ODVDP: i32 = 20;

pub const ODPDT: i32 = 21;

pub const OIJTC: i32 = 22;

pub const OJTC: i32 = 23;

pub const OPC: i32 = 31;

pub const OBETAP: i32 = 32;

pub const OFI: i32 = 33;

pub const OFU: i32 = 34;

pub const OALFAP: i32 = 35;

// The ranges' ends and the constants, in the order of specs/Constant.antt: its contract is the one test that each literal is its decimal.
pub fn constants() -> [f64; 22]
    ensures { result ≡ printed }
{
    [
        P_RANGE.from,
        P_RANGE.to,
        T_RANGE.from,
        T_RANGE.to,
        D_RANGE.from,
        D_RANGE.to,
        H_RANGE.from,
        H_RANGE.to,
        S_RANGE.from,
        S_RANGE.to,
        P_SATURATED.to,
        T_SATURATED.to,
        P_TOL,
        T_TOL,
        RGAS_WATER,
        TC_WATER,
        PC_WATER,
        DC_WATER,
        SC_WATER,
        TT,
        P_SATURATED.from,
        T_SATURATED.from,
    ]
}

// The property numbers, in the order of specs/Property.antt, under one test as the constants are.
pub fn property_numbers() -> [i32; 25]
    ensures { result ≡ property_numbers }
{
    [
        OP, OV, OH, OS, OE, OU, OCP, OCV, OW, OKS, OF, OG, OZ, OEC, OKT, ODVDT, ODVDP, ODPDT,
        OIJTC, OJTC, OPC, OBETAP, OFI, OFU, OALFAP,
    ]
}

// std's method under the word by which the definitions speak.
pub fn is_finite(x: f64) -> bool
    ensures { result ≡ finite x }
{
    x.is_finite()
}

// x / y, or y where that is lost: x divided by an infinity is 0 and would hide it.
pub fn over(x: f64, y: f64) -> f64
    ensures { result ≡ raw_over x y }
{
    if is_finite(y) { x / y } else { y }
}

// x without its sign. Kept: the definition (|x| of a search and of a check) leaves -0 as it is, and f64::abs answers 0 for it.
pub fn size(x: f64) -> f64
    ensures { result ≡ size_of x }
{
    if x < 0.0 {
        return -x;
    }
    x
}

// A step's number, or refusal 5.
pub fn settle(x: f64) -> Result<f64, Refusal>
    ensures { paper result ≡ check x }
{
    if is_finite(x) {
        Ok(x)
    } else {
        Err(Refusal::Step)
    }
}

// The number of an answer, or a NaN where it is refused: for a layer that tests once.
pub fn or_nan(a: Result<f64, Refusal>) -> f64
    ensures { result ≡ or_nan (paper a) }
{
    match a {
        Ok(x) => x,
        Err(_) => f64::NAN,
    }
}

// x, or a NaN where it is not finite.
pub fn finite_or_nan(x: f64) -> f64
    ensures { result ≡ or_nan (check x) }
{
    or_nan(settle(x))
}

// The number of an answer's refusal, 0 where it is accepted.
pub fn refusal_byte<T: Drop>(a: Result<T, Refusal>) -> u8
    ensures { result ≡ number_in (paper a) }
{
    match a {
        Ok(_) => 0,
        Err(k) => k.into(),
    }
}

// The checks of a call with one argument.
pub fn check_only(x: f64, range: Interval) -> Result<(), Refusal>
    ensures { paper result ≡ only_rule range.from range.to x }
{
    if !is_finite(x) {
        return Err(Refusal::NotFinite);
    }
    if !range.contains(x) {
        return Err(Refusal::First);
    }
    Ok(())
}

// The checks of a call with two arguments, x and y.
pub fn check_pair(x: f64, x_range: Interval, y: f64, y_range: Interval) -> Result<(), Refusal>
    ensures { paper result ≡ pair_rule x_range.from x_range.to x y_range.from y_range.to y }
{
    if !is_finite(x) || !is_finite(y) {
        return Err(Refusal::NotFinite);
    }
    if !x_range.contains(x) {
        return Err(Refusal::First);
    }
    if !y_range.contains(y) {
        return Err(Refusal::Second);
    }
    Ok(())
}

// Whether a p, T or d is in its range.
pub fn in_p(p: MPa) -> bool
    ensures { result ≡ within p_range_from p_range_to p.0 }
{
    P_RANGE.contains(p.0)
}

pub fn in_t(t: Kelvin) -> bool
    ensures { result ≡ within t_range_from t_range_to t.0 }
{
    T_RANGE.contains(t.0)
}

pub fn in_d(d: KgPerM3) -> bool
    ensures { result ≡ within d_range_from d_range_to d.0 }
{
    D_RANGE.contains(d.0)
}

// The checks of the five pairs. Kept: five of one line, so that each argument stands under its unit.
pub fn check_Td(t: Kelvin, d: KgPerM3) -> Result<(), Refusal>
    ensures { paper result ≡ Td_box t.0 d.0 }
{
    check_pair(t.0, T_RANGE, d.0, D_RANGE)
}

// What lies in its range is finite, so a p and a T of the box need not be looked at for that: the column run tests every row here.
pub fn check_pT(p: MPa, t: Kelvin) -> Result<(), Refusal>
    ensures { paper result ≡ pT_box p.0 t.0 }
{
    if in_p(p) && in_t(t) {
        return Ok(());
    }
    check_pair(p.0, P_RANGE, t.0, T_RANGE)
}

pub fn check_ph(p: MPa, h: KJPerKg) -> Result<(), Refusal>
    ensures { paper result ≡ ph_box p.0 h.0 }
{
    check_pair(p.0, P_RANGE, h.0, H_RANGE)
}

pub fn check_ps(p: MPa, s: KJPerKgK) -> Result<(), Refusal>
    ensures { paper result ≡ ps_box p.0 s.0 }
{
    check_pair(p.0, P_RANGE, s.0, S_RANGE)
}

pub fn check_hs(h: KJPerKg, s: KJPerKgK) -> Result<(), Refusal>
    ensures { paper result ≡ hs_box h.0 s.0 }
{
    check_pair(h.0, H_RANGE, s.0, S_RANGE)
}
