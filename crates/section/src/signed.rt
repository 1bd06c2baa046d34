// The signed distance of a point and of a sphere to a half-section, and what bodies that overlap it share.
mod distance;
mod overlap;

pub use distance::{crosses, meridian, signed_distance_2d, sphere_distance};
pub use overlap::{deeper_at, deeper_inside, result_of};
