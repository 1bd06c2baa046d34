// An answer handed out to the places that a C caller lends. Each function gives 0 for a value, or the number of a refusal; then
// nothing that was lent is changed.
mod building;
mod cylinder;
mod distances;
mod lifting;
mod moving;
mod pair;
mod verdict;
mod walks;

pub use building::give_count;
pub use cylinder::give_cylinder;
pub use distances::give;
pub use lifting::{give_lifted, give_lifted_cylinder};
pub use moving::give_report;
pub use pair::give_pair;
pub use verdict::judge;
pub use walks::give_walk;
