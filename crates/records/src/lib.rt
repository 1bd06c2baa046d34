// The queries over a slice of vertex records: a thin layer that copies them into an array of numbers
// and asks the core on its front.
#![tactic(auto)]

mod copying;
mod exports;
mod queries;
mod replies;

pub use queries::{
    aabb_polygon_distance_of, query_cylinder_of, query_sphere_of, signed_distance_of,
};

// For C and Rust.
pub use exports::{jorghipa_box_of, jorghipa_cylinder_of, jorghipa_point_of, jorghipa_sphere_of};
pub use replies::{Ball, Bar, Bounds, CylinderReply, Place, Reply};
