// What is found on the way to a distance: a clipped part, two places, a hit with its legs.
ghost use Rattle.section.specs.segments.Hopeless.{Hopeless};

use crate::profile::CollisionHit;

// The part of a segment from t0 to t1 of its length.
#[derive(Clone, Copy)]
pub struct Part {
    pub t0: f64,
    pub t1: f64,
}

// How far along each of two segments they are closest.
#[derive(Clone, Copy)]
pub struct Places {
    pub s: f64,
    pub t: f64,
}

// A hit, and two legs: whatever is as far along both has no smaller distance.
#[derive(Clone, Copy)]
pub struct Near {
    pub hit: CollisionHit,
    pub z: f64,
    pub r: f64,
    ghost legs: { Hopeless z r hit.distance },
}
