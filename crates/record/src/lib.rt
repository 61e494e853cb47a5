// What the entry points share: the property record with its answer and where a volume comes from (`records`), and a p, T or d of the state,
// tested where it comes out (`state`).
#![tactic(auto)]

use common::Refusal;
use subregion::Letter;

mod records;
mod state;

pub use records::refuse;
pub use state::{density, settle_p, settle_t, settle_v};

// The property record: K, kg/m3, m3/kg, MPa, kJ/kg, kJ/(kg K), kJ/kg, kJ/(kg K), kJ/(kg K), m/s.
#[derive(Clone, Copy, Debug, Default, PartialEq)]
pub struct Record {
    pub T: f64,
    pub d: f64,
    pub v: f64,
    pub p: f64,
    pub h: f64,
    pub s: f64,
    pub u: f64,
    pub cv: f64,
    pub cp: f64,
    pub w: f64,
}

// The answer of a call for a record: all +0.0 where it is refused.
// Kept: no Result, since the caller's record goes in by value and comes back zeroed on a refusal, a rule of the project (decision 28).
#[derive(Clone, Copy, Debug, PartialEq)]
pub struct RecordAnswer {
    pub verdict: Result<(), Refusal>,
    pub record: Record,
}

// Where a volume comes from: a letter's equation, or the answer at the critical point, which has no letter.
// Kept: an Option<Letter> would be no plainer, since its None says nothing of the critical point.
#[derive(Clone, Copy, Debug, PartialEq, Eq)]
pub enum Origin {
    Subregion(Letter),
    Critical,
}
