// A straight move in steps, and what is reported of it.
use arith::Vec3;

// Offsets of a body's positions: at the start, at the end, and in how many steps.
#[derive(Clone, Copy)]
pub struct Travel {
    pub start: Vec3,
    pub end: Vec3,
    pub steps: u32,
}

// The smallest distance and the first step that has it; the first step that collides, if one does; the boxes measured in
// all steps.
#[derive(Clone, Copy)]
pub struct Report {
    pub distance: f64,
    pub step: u32,
    pub colliding_step: Option<u32>,
    pub boxes: u32,
}
