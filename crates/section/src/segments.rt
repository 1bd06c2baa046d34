// The closest point of a segment to a point and of two segments, and the part of a segment that a box
// holds.
mod clip;
mod near;
mod segment;
mod shapes;
mod thresholds;

pub use clip::clip_segment;
pub use near::{hopeless, legless, nearer_near, too_far};
pub use segment::{closer_between, closest_point, lerp, point_segment, seg_seg_point_on_first};
pub use shapes::{Near, Part};
pub use thresholds::{BOUNDARY, INTERIOR};
