// Box distance to a half-section.
mod aabb;

pub use aabb::{box_distance, box_distance_near};
