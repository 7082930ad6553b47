// The codebooks, the rotation and the gains of spectral noise shaping. A table is handed out whole by one function: a caller
// asks once and lends it on, so that no loop stores a constant array. The functions differ in nothing but the data, and each
// is pinned to a definition of its own. Public for the crates above only.

#![tactic(auto)]

pub mod by_columns;
pub mod by_place;
pub mod codebooks;
pub mod spec_noise_shape_quant_tables;
