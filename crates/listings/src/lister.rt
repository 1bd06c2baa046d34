// The listing of a store, as functions on bytes.
mod bodies;
mod lines;
mod listing;

pub use listing::{list_input, list_store, refusal_line};
