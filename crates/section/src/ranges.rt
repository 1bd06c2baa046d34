// Where the computed points of edges, of a box's sides and of a polygon lie along each axis, so that most
// edges need no look.
mod hull;
mod likely;
mod passed;
mod range;
mod search;
mod shapes;

pub use hull::hull_of;
pub use likely::{likely_edge, likely_edge_at, likely_edge_or};
pub use passed::{far_from, far_off, gap_between, misses_along, misses_box};
pub use range::{range_of, ranges_of, sides_of};
pub use search::start_over;
pub use shapes::{Range, Sides};
