pub use sns_decode::{decode, decode_pulses};
