// The calls of algo/polynomial.rs and algo/polynomial_steps.rs over a caller's columns, each total, with the Rust's names. `column_sums` has the sums.
#![tactic(auto, using(common::proofs::Calls::passed_on, common::proofs::Calls::went_in))]

mod polynomial;

pub use polynomial::{
    poly_i_powi, poly_ii_powi, poly_ij_powi, poly_j_powi, poly_jj_powi, poly_powi, polys_0_j_powi,
    polys_i_ii_ij_jj_powi, polys_i_ii_powi, polys_i_ij_powi, polys_i_j_powi,
};
