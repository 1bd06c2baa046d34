// Convex body distance to a half-section.
mod convex;
mod gap;

pub use convex::convex_distance;
