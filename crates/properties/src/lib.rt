// The properties at a temperature and a density by the basic equation: R7-97(2012), table 31 (`region3_Td`), and the first number of two that
// is lost (`lost`). The checks of the box are the callers'.
#![tactic(auto)]

mod lost;
mod region3_Td;

pub use lost::lost_or;
pub use region3_Td::{
    delta_of, raw_cp_w, raw_cv, raw_h, raw_p, raw_s, raw_u, raw_v, state_p, tau_of,
};

// cp and w of one evaluation, each its number or a NaN.
// Kept: beside by_number's `CpW`, which differs in a type alone: what is lost is a NaN here, a refusal of its own there; a type parameter would name neither.
#[derive(Clone, Copy)]
pub struct RawCpW {
    pub cp: f64,
    pub w: f64,
}
