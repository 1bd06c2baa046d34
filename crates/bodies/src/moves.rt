// A straight move: where a body stands at each step, and what is turned down.
mod placement;
mod refusal;
mod shapes;

pub use placement::placed_at;
pub use refusal::before_placing;
pub use shapes::{Report, Travel};
