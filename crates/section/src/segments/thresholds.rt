// The Rust's named thresholds, in mm.

// A distance this small is a touch.
pub const BOUNDARY: f64 = 1e-12;

// Strict interior tests stay this far from a shared face.
pub const INTERIOR: f64 = 1e-9;
