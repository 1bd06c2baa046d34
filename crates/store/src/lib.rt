// The store of 40-byte records, as functions on bytes: its fields, its chain and its kinds; what it says; edits of it.
#![tactic(auto)]

mod answers;
mod bytes;
mod chain;
pub mod edits;
mod kinds;
mod reader;
mod store_edits;

pub use answers::RefusedStore;
pub use edits::{Edit, Place, Role};
pub use reader::{length_answer, read_chain, read_section, read_store};
pub use store_edits::edit_store;

// For the crates above.
pub use bytes::{kind_of, next_of, number_of, u64_at};
pub use chain::follow_chain;
pub use edits::put;
pub use kinds::{Kind, is_kind, kinds_answer};
