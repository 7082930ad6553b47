pub use sns_shape::shape;
