// What is turned down: the tests of a call in their order, and the first that is true.
mod fine;
mod refusal;

pub use refusal::{
    alone_refusal, any_below_axis, body_refusal, bounds_refusal, box_refusal, convex_refusal,
    list_refusal, point_refusal, radius_refusal, sphere_refusal,
};
