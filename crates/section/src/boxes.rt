// The gap between a half-section and a box.
mod gap;
mod shapes;

pub use gap::box_gap;
