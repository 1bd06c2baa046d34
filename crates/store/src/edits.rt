// What an edit of a store is, who may make it, and the space that it is made in.
mod allowing;
mod copying;
mod judging;
mod searching;
mod shapes;

pub use shapes::{Edit, Place, Role};

// For the crates above.
pub use allowing::{add_not_allowed, replace_not_allowed};
pub use copying::put;
pub use judging::{chain_of, space_answer};
pub use searching::{holds, lowest};
