// A profile is a lent list of numbers, z and radius in turn: its vertices and edges.
mod shapes;
mod vertices;

pub use shapes::{Aabb, CollisionHit, Edge, Sphere, Vertex, Witness};

// For the crates above.
pub use vertices::{any_edge, edge_at, end_at, nearer_of, on, vertex_at};
