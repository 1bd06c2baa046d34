// The text of a listing: words, numbers and bits, put into bytes.
mod text;

// For the crates above.
pub use text::{put_bits, put_decimal, put_hex, put_word};
