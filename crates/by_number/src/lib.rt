// A property at a temperature and a density by its number, and cp and w together: the 25 numbers of common/property_id.rs that the Rust's
// `Td_thermal_reg3` and `Td_ext_reg3` name.
#![tactic(auto)]

use common::Refusal;

mod property;

pub use property::{Td_thermal_reg3, Td2cp_w_reg3};

// What is asked of cp and w together: each a value or a refusal of its own. Kept: no one Result, since either may be refused without the other.
#[derive(Clone, Copy)]
pub struct CpW {
    pub cp: Result<f64, Refusal>,
    pub w: Result<f64, Refusal>,
}
