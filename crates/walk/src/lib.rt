// Cylinders beside a half-section: their bands, the walk over the pieces of one across the spindle, the query.
#![tactic(auto)]

pub mod bands;
pub mod cylinders;
mod pieces;
mod samples;
pub mod settings;
mod shapes;
mod walker;

pub use bands::{Axis, Cylinder, RadialBand, Span, axial_box, axis_of, exchanged};
pub use cylinders::query_cylinder;
pub use samples::sampled;
pub use settings::{Settings, finest, settings_refusal};
pub use shapes::CountedHit;

// For the crates above.
pub use cylinders::{cylinder_distance, cylinder_refusal, own_refusal};
