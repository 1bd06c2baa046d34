// Calls above the queries: one body of any kind, verdicts, many bodies, straight moves, two sections, the machine's axes.
#![tactic(auto)]

pub mod assemblies;
mod lifted;
mod moves;
pub mod pairs;
mod queries;
mod refusal;
mod shapes;
mod trials;
mod verdicts;
mod walk_verdicts;

pub use assemblies::any_hit;
pub use lifted::{Lifted, lift, lifted_cylinder, lifted_point, lifted_sphere};
pub use moves::{Report, Travel, before_placing, placed_at};
pub use pairs::{Won, nearer_section, nearer_section_convex, query_pair, query_pair_convex};
pub use queries::query_body;
pub use shapes::Body;
pub use trials::try_move;
pub use verdicts::{
    Verdict, verdict_body, verdict_box, verdict_convex, verdict_cylinder, verdict_sphere,
};
pub use walk_verdicts::{JudgedWalk, verdict_walk};

// For the crates above.
pub use refusal::body_alone;
