// The C interface. Each function returns 0, or the number under which the call is turned down; then
// nothing that was lent is changed. jorghipa.h declares them and says what the caller owes; capi_c exports them.
#![tactic(auto)]

mod assembly;
mod building;
mod cylinder;
mod distances;
mod editing;
mod given_edits;
mod handing;
mod lifting;
mod lists;
mod moving;
mod numbers;
mod pair;
mod verdict;

pub use assembly::jorghipa_any_hit;
pub use building::{jorghipa_build_polygon, jorghipa_build_section};
pub use cylinder::jorghipa_cylinder;
pub use distances::{jorghipa_box, jorghipa_convex, jorghipa_point, jorghipa_sphere};
pub use editing::{jorghipa_add, jorghipa_read_store, jorghipa_replace};
pub use lifting::{jorghipa_lifted_cylinder, jorghipa_lifted_point, jorghipa_lifted_sphere};
pub use moving::jorghipa_move;
pub use numbers::{jorghipa_hypot, jorghipa_sqrt, jorghipa_version};
pub use pair::{jorghipa_pair, jorghipa_pair_convex};
pub use verdict::{
    jorghipa_verdict_box, jorghipa_verdict_convex, jorghipa_verdict_cylinder,
    jorghipa_verdict_sphere, jorghipa_verdict_walk,
};
