// What square root and hypot are made of: a guess, squares in whole numbers, and the test against a half.
mod guess;
mod midpoint;
mod wide;

pub use guess::guessed;
pub use midpoint::{SoughtRoot, nearest_of_three};
pub use wide::{Parts, Wide};
