// The answers: the whole plain hit and its witness in the machine's axes.
use arith::Vec3;

// A hit, with or without the counts of a cylinder, and its witness lifted.
#[derive(Clone, Copy)]
pub struct Lifted<H> {
    pub hit: H,
    pub witness: Vec3,
}
