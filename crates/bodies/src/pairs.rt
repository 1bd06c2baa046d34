// Two sections and one body, the chuck and the work: which of them is nearer, and its hit.
mod pairs;
mod refusal;
mod shapes;

pub use pairs::{nearer_section, nearer_section_convex, query_pair, query_pair_convex};
pub use shapes::Won;
