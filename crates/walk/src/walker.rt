// The walk over the pieces of a cylinder across the spindle.
mod walker;

pub use walker::{band_distance, one_box};
