// Half-sections: profiles, what is turned down, the builders; points, spheres, boxes and convex bodies beside them.
#![tactic(auto)]

mod aabb;
mod boxes;
mod builders;
mod convex;
mod outcomes;
pub mod points;
mod probes;
pub mod profile;
mod queries;
mod ranges;
mod refusals;
pub mod segments;
mod shapes;
mod signed;

pub use builders::{
    check_polygon, check_section, try_from_polygon, try_from_section, write_polygon, write_section,
};
pub use outcomes::Outcome;
pub use profile::{Aabb, CollisionHit, Edge, Sphere, Vertex, Witness};
pub use queries::{aabb_polygon_distance, convex_polygon_distance, query_sphere, signed_distance};
pub use refusals::{
    alone_refusal, any_below_axis, body_refusal, bounds_refusal, box_refusal, convex_refusal,
    list_refusal, point_refusal, radius_refusal, sphere_refusal,
};
pub use shapes::Refusal;

// For the crates above.
pub use aabb::{box_distance, box_distance_near};
pub use convex::convex_distance;
pub use profile::nearer_of;
pub use signed::{signed_distance_2d, sphere_distance};
