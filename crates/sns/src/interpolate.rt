pub use sns_interpolate::interpolate;
