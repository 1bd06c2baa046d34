// The cylinder query.
mod queries;
mod refusal;

pub use queries::query_cylinder;

// For the crates above, without checks of the input.
pub use queries::cylinder_distance;
pub use refusal::{cylinder_refusal, own_refusal};
