// The secant search of algo/root.rs, `rtsec`: the place on a curve at which the property has the asked value. What the Rust takes as a function is
// the curve here. A place is a T or a d by the curve, and a bare number inside this file; who asks gives the two start points under their unit. The order of
// the steps is in specs/Secant.antt; a step that is lost ends the search with 5.
#![tactic(auto, using(common::proofs::Calls::passed_on, common::proofs::Calls::went_in))]

ghost use Rattle.std.specs.Prelude.{◌≡◌};
ghost use Rattle.std.specs.Float.Ieee.{lt};
ghost use Rattle.common.specs.Answer.{paper};
ghost use Rattle.common.specs.Formula.{size_of};
ghost use Rattle.secant.specs.declared.Curve.TheVariants.{Isochore, Enthalpy, Entropy};
ghost use Rattle.secant.specs.Secant.{convergence_precision, missing_at, lifted_to, opened_by, newer_last, start_of, trial_by, turn_of, proposal_from, proposal_rule};

use common::{KJPerKg, KJPerKgK, Kelvin, KgPerM3, MPa, Refusal, settle, size};
use properties::{raw_h, raw_p, raw_s};

// A property along the one of T and d that is searched, at the other, and what is asked of it.
// Kept: a closed kind and no `impl Fn`, a rule of the project: what the Rust takes as a function is a choice by kind (decision 39).
#[derive(Clone, Copy, Debug, PartialEq)]
pub enum Curve {
    // p over T, at a density
    Isochore(KgPerM3, MPa),
    // h over d, at a temperature
    Enthalpy(Kelvin, KJPerKg),
    // s over d, at a temperature
    Entropy(Kelvin, KJPerKgK),
}

// The last two places, the older one first, each with what is missing there of the asked value; and the last step.
// Kept: five numbers and no pair of places, since they are the Rust's variables.
#[derive(Clone, Copy, Debug, PartialEq)]
pub struct Secant {
    pub xl: f64,
    pub fl: f64,
    pub x: f64,
    pub f: f64,
    pub dx: f64,
}

// The place that the search proposes, in K or kg/m3, and how many trials it made.
#[derive(Clone, Copy, Debug, PartialEq)]
pub struct Proposal {
    pub place: f64,
    pub trials: u32,
}

// algo/root.rs
const MAX_ITER: u32 = 20000;

const CONVERGENCE_PRECISION: f64 = 1.0e-8;

// Where a place that is not above 0 is put.
const LIFTED: f64 = 0.000001;

// What is missing at x of what is asked.
#[tactic(auto, using(common::proofs::Formulas::raw_sub_from), unfolding(crate::specs::Secant::missing_at))]
fn missing(curve: Curve, x: f64) -> Result<f64, Refusal>
    ensures { paper result ≡ missing_at curve x }
{
    settle(match curve {
        Curve::Isochore(d, p) => p.0 - raw_p(Kelvin(x), d),
        Curve::Enthalpy(t, h) => h.0 - raw_h(t, KgPerM3(x)),
        Curve::Entropy(t, s) => s.0 - raw_s(t, KgPerM3(x)),
    })
}

#[tactic(auto, unfolding(std::specs::Prelude::from_bits, common::specs::Decimal::decimal, common::specs::Decimal::scaled))]
fn lifted(x: f64) -> f64
    ensures { result ≡ lifted_to x }
{
    if x <= 0.0 { LIFTED } else { x }
}

// The first step, where the two start points differ in what is missing.
#[tactic(auto, using(crate::proofs::Steps::step_is), unfolding(crate::specs::Secant::opened_by, std::specs::Prelude::from_bits))]
fn opened(s: Secant) -> Result<Secant, Refusal>
    ensures { paper result ≡ opened_by s }
{
    let e = settle(s.f - s.fl)?;
    if e == 0.0 {
        return Ok(s);
    }
    let dx = settle((s.xl - s.x) * s.f / e)?;
    Ok(Secant { dx, ..s })
}

// Two places with their misses, the one with the smaller miss as the newer; no step yet.
fn ordered(x1: f64, f1: f64, x2: f64, f2: f64) -> Secant
    ensures { result ≡ newer_last x1 f1 x2 f2 }
{
    let (xl, fl, x, f) = if size(f1) < size(f2) {
        (x2, f2, x1, f1)
    } else {
        (x1, f1, x2, f2)
    };
    Secant {
        xl,
        fl,
        x,
        f,
        dx: 0.0,
    }
}

// The two start points, and the first step from them.
#[tactic(auto, unfolding(crate::specs::Secant::start_of))]
fn start(curve: Curve, x1: f64, x2: f64) -> Result<Secant, Refusal>
    ensures { paper result ≡ start_of curve x1 x2 }
{
    let f1 = missing(curve, x1)?;
    let f2 = missing(curve, x2)?;
    opened(ordered(x1, f1, x2, f2))
}

// One trial, where e is by how much the last two misses differ: the step, the place to which it leads, and what is missing there.
#[tactic(auto, using(crate::proofs::Steps::step_is), unfolding(crate::specs::Secant::trial_by))]
fn trial(curve: Curve, s: Secant, e: f64) -> Result<Secant, Refusal>
    ensures { paper result ≡ trial_by curve s e }
{
    let dx = settle((s.xl - s.x) * s.f / e)?;
    let x = lifted(settle(s.x + dx)?);
    let f = missing(curve, x)?;
    Ok(Secant {
        xl: s.x,
        fl: s.f,
        x,
        f,
        dx,
    })
}

// Whether a step was long enough for another.
#[tactic(auto, unfolding(std::specs::Prelude::from_bits, common::specs::Decimal::decimal, common::specs::Decimal::scaled))]
fn far(dx: f64) -> bool
    ensures { result ≡ lt convergence_precision (size_of dx) }
{
    CONVERGENCE_PRECISION < size(dx)
}

// A trial more, where one is asked for.
#[tactic(auto, unfolding(crate::specs::Secant::turn_of, std::specs::Prelude::from_bits))]
fn try_next(curve: Curve, s: Secant) -> Result<Option<Secant>, Refusal>
    ensures { paper result ≡ turn_of curve s }
{
    if !far(s.dx) || s.f == 0.0 {
        return Ok(None);
    }
    let e = settle(s.f - s.fl)?;
    if e == 0.0 {
        return Ok(None);
    }
    Ok(Some(trial(curve, s, e)?))
}

// The trials, one after the other, at most MAX_ITER of them.
fn trials(curve: Curve, from: Secant) -> Result<Proposal, Refusal>
    ensures { paper result ≡ proposal_from curve from }
{
    let mut at = from;
    for count in 0..MAX_ITER {
        match try_next(curve, at)? {
            Some(next) => at = next,
            None => {
                return Ok(Proposal {
                    place: at.x,
                    trials: count,
                });
            }
        }
    }
    Ok(Proposal {
        place: at.x,
        trials: MAX_ITER,
    })
}

// The proposal of a search from x1 and x2.
#[tactic(auto, unfolding(crate::specs::Secant::proposal_rule))]
fn rtsec(curve: Curve, x1: f64, x2: f64) -> Result<Proposal, Refusal>
    ensures { paper result ≡ proposal_rule curve x1 x2 }
{
    let s = start(curve, x1, x2)?;
    trials(curve, s)
}

// The T at which p is the asked one, at a density.
// Kept: three calls of one search, so that each of the two start points and what is asked stands under its unit.
pub fn rtsec_p(d: KgPerM3, p: MPa, t1: Kelvin, t2: Kelvin) -> Result<Proposal, Refusal>
    ensures { paper result ≡ proposal_rule (Isochore d p) t1.0 t2.0 }
{
    rtsec(Curve::Isochore(d, p), t1.0, t2.0)
}

// The d at which h is the asked one, at a temperature.
pub fn rtsec_h(t: Kelvin, h: KJPerKg, d1: KgPerM3, d2: KgPerM3) -> Result<Proposal, Refusal>
    ensures { paper result ≡ proposal_rule (Enthalpy t h) d1.0 d2.0 }
{
    rtsec(Curve::Enthalpy(t, h), d1.0, d2.0)
}

// The d at which s is the asked one, at a temperature.
pub fn rtsec_s(t: Kelvin, s: KJPerKgK, d1: KgPerM3, d2: KgPerM3) -> Result<Proposal, Refusal>
    ensures { paper result ≡ proposal_rule (Entropy t s) d1.0 d2.0 }
{
    rtsec(Curve::Entropy(t, s), d1.0, d2.0)
}
