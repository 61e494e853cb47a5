#![tactic(auto)]

mod region3;

pub use region3::{hs_reg3, pT_reg3, ph_reg3, ps_reg3};
