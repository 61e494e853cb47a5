// The letters of a band by T, from the numbers of its boundaries, whatever these are: crates bands and boundary work the boundaries out.
#![tactic(auto)]

mod letter_by;

pub use letter_by::{
    by_ab, by_cdef, by_chijk, by_clmnopjk, by_csrk, by_cst, by_ct, by_saturated, by_uvwx, by_uyzx,
    round_critical,
};
