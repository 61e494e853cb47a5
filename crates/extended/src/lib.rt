// The eleven properties beyond table 31 that work no p, at a temperature and a density, by the Rust's formulas. The checks of the box are the callers'.
#![tactic(auto)]

mod region3_Td_ext;

pub use region3_Td_ext::{
    raw_dpdtcv, raw_dvdpct, raw_dvdtcp, raw_e, raw_ec, raw_f, raw_fi, raw_g, raw_iJTC, raw_joule,
    raw_kt,
};
