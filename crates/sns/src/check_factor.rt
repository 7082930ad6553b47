pub use sns_check::check_factor;
