pub use numbering::Numbered;
pub use sns_number::pack::pack;
