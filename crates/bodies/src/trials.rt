// Trying a straight move: a body placed step by step beside a section, with a clearance.
mod report;
mod trying;

pub use trying::try_move;
