// Which of a box's five probes lie inside a section, in one pass over its edges.
mod probes;
mod reach;
mod shapes;

pub use probes::{deeper_probe, none_inside, odd_probes};
pub use shapes::Probes;
