// The volume by its origin: the equation of each letter (S05rev), or the critical point's. A file has the name of the Rust's where the Rust has it.
#![tactic(auto, using(common::proofs::Calls::passed_on, common::proofs::Calls::went_in))]

use common::{KgPerM3, M3PerKg};
use record::Origin;

mod by_origin;
mod region3_v_subregion_pT;

pub use by_origin::{found_by, volume_from};

// A volume equation with its reducing volume, pressure and temperature and its shifts: v*, p*, T*, a, b of table 4.
// Kept: the case is the outer form and holds a row of the printed table; a struct of five beside a kind would part what the page has in one row.
#[derive(Clone, Copy, Debug, PartialEq)]
enum Equation {
    // v / v* is the sum at p / p* - a and T / T* - b
    Plain(f64, f64, f64, f64, f64),
    // the sum at the root of the reduced pressure
    RootP(f64, f64, f64, f64, f64),
    // the sum at the fourth root of the reduced temperature
    FourthRootT(f64, f64, f64, f64, f64),
    // the fourth power of the sum
    Fourth(f64, f64, f64, f64, f64),
    // the fourth power of the sum at the root of the reduced pressure
    RootPFourth(f64, f64, f64, f64, f64),
    // the exponential of the sum
    Exponential(f64, f64, f64, f64, f64),
}

// What (p,T) finds: the origin of the volume, the volume and the density.
#[derive(Clone, Copy, Debug, PartialEq)]
pub struct State {
    pub origin: Origin,
    pub volume: M3PerKg,
    pub density: KgPerM3,
}
