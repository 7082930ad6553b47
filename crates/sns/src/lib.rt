// Spectral noise shaping of LC3: the public calls. Nothing is required of a caller; every call returns on every input, and
// states its whole answer and every element of each lent buffer. The calls stand in crates of their own, `sns_check` to
// `sns_number`, with their questions, their statements and what is claimed of them; here is the list of them, and in specs/
// the page of demands. A call that can be refused answers a Result, whose error is a refusal with its number and its place.
//   check_factor   one factor against the limit
//   decode         a frame's fields into sixteen factors, or into their sixteen pulses
//   encode         sixteen factors into a frame's fields, and sixteen synthesised factors
//   interpolate    sixteen factors into 60 or 64 bands
//   pack           a pulse vector into its index and lead sign
//   shape          spectrum lines by linear gains, in place
//   unpack         an index and a lead sign into the pulse vector

#![tactic(auto)]

pub mod check_factor;
pub mod decode;
pub mod encode;
pub mod fields;
pub mod interpolate;
pub mod pack;
pub mod shape;
pub mod unpack;

pub use refusals::{Refusal, Refused};
