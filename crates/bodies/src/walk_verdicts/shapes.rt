// The answer of a verdict that counts.

// Whether the cylinder collides; how many boxes were measured, the most pieces that waited at any one time, and whether the
// walk was cut.
#[derive(Clone, Copy)]
pub struct JudgedWalk {
    pub collision: bool,
    pub boxes: usize,
    pub waiting: usize,
    pub cut: bool,
}
