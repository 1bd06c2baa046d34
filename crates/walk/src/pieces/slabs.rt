// A piece of a band with what is known of it: its spans, its box distance and its variation.
ghost use Rattle.std.specs.Prelude.{◌≡◌, ◌≤◌};
ghost use Rattle.section.specs.profile.Vertices.{count};
ghost use Rattle.walk.specs.pieces.Pieces.{spans_of, widest, narrowest};
ghost use Rattle.walk.specs.pieces.Steps.{cross_at, measure};

use super::pieces::{box_of, variation_of};
use super::shapes::{Cross, Measured, Part, Spans};
use crate::bands::{RadialBand, Span};
use section::box_distance_near;

// A piece of a band, with half width and span known at both its ends and at the axis.
#[derive(Clone, Copy)]
pub struct Slab {
    pub band: RadialBand,
    pub part: Part,
    pub right: Cross,
    pub middle: Cross,
    ghost left_known: { part.left ≡ cross_at band part.piece.z0 },
    ghost right_known: { right ≡ cross_at band part.piece.z1 },
    ghost middle_known: { middle ≡ cross_at band band.zc },
}

impl Slab {
    fn widest_of(self) -> Span
        ensures { result ≡ widest self.band self.part.piece }
    {
        let zc = self.band.zc;
        let part = self.part;
        let p = part.piece;
        if zc < p.z0 {
            return part.left.span;
        }
        if p.z1 < zc {
            return self.right.span;
        }
        self.middle.span
    }

    fn narrowest_of(self) -> Span
        ensures { result ≡ narrowest self.band self.part.piece }
    {
        let left = self.part.left;
        let right = self.right;
        if left.rho <= right.rho {
            return left.span;
        }
        right.span
    }

    pub fn spans_of(self) -> Spans
        ensures { result ≡ spans_of self.band self.part.piece }
    {
        Spans {
            widest: self.widest_of(),
            narrowest: self.narrowest_of(),
        }
    }

    // The distance of the piece's box, and the piece's variation.
    pub fn measure(self, s: &[f64], hint: usize) -> Measured
        requires { 3 ≤ count s.now }
        ensures { result ≡ measure s.now self.band self.part.piece }
    {
        let spans = self.spans_of();
        let hit = box_distance_near(s, box_of(self.part.piece, spans), Some(hint));
        Measured {
            hit,
            variation: variation_of(spans),
        }
    }
}
