// The hit of a walk, with its counts.
use section::CollisionHit;

// A hit with how many boxes were measured, the most pieces that waited at any one time, and
// whether the walk was cut.
#[derive(Clone, Copy)]
pub struct CountedHit {
    pub hit: CollisionHit,
    pub boxes: usize,
    pub waiting: usize,
    pub cut: bool,
}
