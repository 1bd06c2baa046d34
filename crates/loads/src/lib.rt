// Test loads: the store that a seed and a vertex count give, on bytes.
#![tactic(auto)]

mod draws;
mod fields;
mod printing;
mod runs;
mod writer;

pub use printing::load_input;
pub use writer::write_load;
