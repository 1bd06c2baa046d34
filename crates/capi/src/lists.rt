// Bodies as C gives them, as kinds and numbers: what is turned down of them, and the bodies.
mod lists;

pub use lists::{bodies_of, body_at, front_of, lists_refusal, one_body_refusal};
