// The listing of a store: what it is, and the functions that write it.
#![tactic(auto)]

mod lister;
pub mod store_listing;

pub use lister::{list_input, list_store, refusal_line};

// For the crates above.
pub use store_listing::{put_decimal, put_hex, put_word};
