// The edge of a half-section that is nearest to a point.
mod near;

pub use near::{edge_is_surface, surface_first, surface_near, surface_rest};
