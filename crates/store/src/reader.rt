// What a store says: accepted, or what it is refused for, and the record; its chain and its section.
mod radii;
mod reader;
mod vertices;

pub use reader::{length_answer, read_chain, read_section, read_store};
