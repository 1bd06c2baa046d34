// The pieces that wait, the one taken next on top.
ghost use Rattle.std.specs.Prelude.{◌≡◌, ◌+◌, ◌<◌, ◌≤◌, List, [], ◌∷◌, length, MatchOption};
ghost use Rattle.walk.specs.declared.pieces.shapes.Part.{Part};
ghost use Rattle.walk.specs.pieces.Steps.{left_half, right_half, stacked};

use super::ends::cross_at;
use super::shapes::{Cross, Part, Piece};
use crate::bands::{RadialBand, Span};
use std::marker::Model;

// What stands at a left end before a piece waits there; nothing reads it.
const NOWHERE: Cross = Cross {
    rho: 0.0,
    span: Span { lo: 0.0, hi: 0.0 },
};

// Start and end of each piece in turn, a flat array as 01 names it, and what is known at each left end.
#[derive(Drop)]
pub struct Waiting {
    pieces: [f64; 108],
    lefts: [Cross; 54],
    count: usize,
}

impl Model for Waiting {
    ghost Value = { List Part };

    ghost view = { λ w. stacked w.pieces w.lefts w.count };

    ghost invariant = { λ w. (w.count ≤ 54) × (length w.pieces ≡ 108) × (length w.lefts ≡ 54) };
}

impl Waiting {
    pub fn new() -> Waiting
        ensures { result ≡ [] }
    {
        Waiting {
            pieces: [0.0; 108],
            lefts: [NOWHERE; 54],
            count: 0,
        }
    }

    pub fn len(&self) -> usize
        ensures { result ≡ length self.now }
    {
        self.count
    }

    pub fn push(&mut self, p: Part)
        requires { length self.old < 54 }
        ensures { self.new ≡ p ∷ self.old }
    {
        let at = self.count;
        self.pieces[2 * at] = p.piece.z0;
        self.pieces[2 * at + 1] = p.piece.z1;
        self.lefts[at] = p.left;
        self.count = at + 1;
    }

    pub fn pop(&mut self) -> Option<Part>
        ensures { MatchOption result (self.old ≡ []) (λ p. self.old ≡ p ∷ self.new) }
    {
        if self.count == 0 {
            return None;
        }
        let at = self.count - 1;
        self.count = at;
        let piece = Piece {
            z0: self.pieces[2 * at],
            z1: self.pieces[2 * at + 1],
        };
        Some(Part {
            piece,
            left: self.lefts[at],
        })
    }

    // Both halves of p wait, the left one first, so that the right one is taken next.
    pub fn push_halves(&mut self, b: RadialBand, p: Part)
        requires { length self.old + 2 ≤ 54 }
        ensures { self.new ≡ right_half b p ∷ left_half p ∷ self.old }
    {
        let left = p.left_half();
        let right = p.right_half(b);
        self.push(left);
        self.push(right);
    }
}
