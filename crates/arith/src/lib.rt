// Numbers below everything: least, greatest, clamp, magnitude; vectors of three f64; the roots.
#![tactic(auto)]

mod bits;
mod hypotenuse;
mod order;
pub mod roots;
mod square_root;
mod vector;

pub use hypotenuse::hypot;
pub use order::{abs, clamp, infinity, is_finite, max, min};
pub use square_root::sqrt;
pub use vector::Vec3;
