// The basic equation of region 3, R7-97(2012) equation 28: the dimensionless Helmholtz free energy φ and its derivatives, each by itself and the
// joint sums (r3/region3_hfe.rs). Each gives its rule's number, or a NaN where a step is lost.
#![tactic(auto)]

mod region3_hfe;

pub use region3_hfe::{
    DeltaTau, PhiTau, Slopes, phi_delta_reg3, phi_deltadelta_reg3, phi_deltatau_reg3, phi_reg3,
    phi_tau_reg3, phi_tautau_reg3, polys_0_j_powi_reg3, polys_i_ii_ij_jj_powi_reg3,
    polys_i_j_powi_reg3,
};
