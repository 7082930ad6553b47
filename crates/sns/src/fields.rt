pub use field_refusal::field_refusal;
pub use frame_fields::Fields;
