// The verdict on a cylinder with what its walk counted, for a lamp that shows where the walk was cut.
mod judging;
mod shapes;

pub use judging::verdict_walk;
pub use shapes::JudgedWalk;
