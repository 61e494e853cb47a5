// (p,v), (T,h) and (T,s): the search proposes the missing T or d, and the check accepts it (r3/region3_pair_ext.rs, `pv_reg3` of r3/region3.rs).
#![tactic(auto)]

use common::Refusal;
use record::Record;

mod calls;

pub use calls::{Th_reg3, Th2d_reg3, Ts_reg3, Ts2d_reg3, pv_reg3, pv2T_reg3};
pub use secant::Proposal;

// The answer of a call for a record, with the trials: all +0.0, and none, where it is refused.
// Kept: no Result, since the caller's record goes in by value and comes back zeroed on a refusal, a rule of the project (decision 28).
#[derive(Clone, Copy, Debug, PartialEq)]
pub struct SearchedRecord {
    pub verdict: Result<(), Refusal>,
    pub record: Record,
    pub trials: u32,
}
