// The numbering of pulse vectors, called from outside: nothing is required of a caller.
#![tactic(auto)]

pub mod pack;
pub mod unpack;
