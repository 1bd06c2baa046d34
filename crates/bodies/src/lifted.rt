// The witness in the machine's axes, and the queries that give it.
mod queries;
mod rule;
mod shapes;

pub use queries::{lifted_cylinder, lifted_point, lifted_sphere};
pub use rule::lift;
pub use shapes::Lifted;
