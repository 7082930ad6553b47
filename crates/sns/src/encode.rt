pub use sns_encode::{Encoded, encode};
