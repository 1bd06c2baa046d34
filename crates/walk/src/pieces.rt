// The pieces of a cylinder's width across the spindle: their boxes, their ends, and those that wait.
mod ends;
mod pieces;
mod shapes;
mod slabs;
mod waiting;

pub use ends::cross_at;
pub use pieces::whole_width;
pub use shapes::{Measured, Part, Piece};
pub use slabs::Slab;
pub use waiting::Waiting;
