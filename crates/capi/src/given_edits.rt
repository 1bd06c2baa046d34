// An edit of a store as C gives it: a number for the role, and bytes that need not be 40.
mod editing;

pub use editing::edit_given;
