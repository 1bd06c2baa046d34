// Edits of a store in a lent space, by a setter or an operator.
mod editing;
mod trying;

pub use editing::edit_store;
