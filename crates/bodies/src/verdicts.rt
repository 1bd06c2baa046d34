// The verdicts on a body, a section and a clearance.
mod shapes;
mod tilt;
mod verdicts;

pub use shapes::Verdict;
pub use verdicts::{verdict_body, verdict_box, verdict_convex, verdict_cylinder, verdict_sphere};

// For the crates above: the judged distance of a body whose distance is known, and of a cylinder whose axis is known too;
// whether a judged distance collides.
pub use tilt::{judged_distance, less_tilt};
pub use verdicts::collides;
