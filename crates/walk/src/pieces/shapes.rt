// A piece, and what is computed of it.
use crate::bands::Span;
use section::CollisionHit;

// A part of the cylinder's width, from z0 to z1.
#[derive(Clone, Copy)]
pub struct Piece {
    pub z0: f64,
    pub z1: f64,
}

// The spans at a piece's greatest and at its least half width.
#[derive(Clone, Copy)]
pub struct Spans {
    pub widest: Span,
    pub narrowest: Span,
}

// Half width and span at one z.
#[derive(Clone, Copy)]
pub struct Cross {
    pub rho: f64,
    pub span: Span,
}

// A piece that waits, with what is known at its left end.
#[derive(Clone, Copy)]
pub struct Part {
    pub piece: Piece,
    pub left: Cross,
}

// The distance of a piece's box, and the piece's variation.
#[derive(Clone, Copy)]
pub struct Measured {
    pub hit: CollisionHit,
    pub variation: f64,
}
