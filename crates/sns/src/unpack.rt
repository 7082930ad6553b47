pub use sns_number::unpack::unpack;
