// The twelve boundaries between the subregions of region 3 (S05rev, equations 1 to 3): the printed table (`table`) and the temperature at a pressure
// (`temperatures`), of the Rust's r3/region3_v_pT.rs. Other crates ask for a boundary by its name. The choice of a letter by them is in crate boundary.
#![tactic(auto)]

mod table;
mod temperatures;

pub use temperatures::{T_atRegionBoundary, bare_boundary, raw_boundary};

// A boundary between two subregions.
#[derive(Clone, Copy, Debug, PartialEq, Eq)]
pub enum Boundary {
    Ab,
    Cd,
    Ef,
    Gh,
    Ij,
    Jk,
    Mn,
    Op,
    Qu,
    Rx,
    Uv,
    Wx,
}
