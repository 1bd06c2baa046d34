// Half width and span at the ends of pieces. Pieces that wait lie end to end, so each end is computed once: where one starts,
// the one below it ends.
ghost use Rattle.std.specs.Prelude.{◌≡◌};
ghost use Rattle.walk.specs.pieces.Steps.{cross_at};
ghost use Rattle.walk.specs.pieces.Steps as steps;

use super::pieces::whole_width;
use super::shapes::{Cross, Part, Piece};
use crate::bands::RadialBand;

pub fn cross_at(b: RadialBand, z: f64) -> Cross
    ensures { result ≡ cross_at b z }
{
    let rho = b.rho_at(z);
    let span = b.span_at_rho(rho);
    Cross { rho, span }
}

impl Part {
    // The whole width.
    pub fn whole(b: RadialBand) -> Part
        ensures { result ≡ steps.whole b }
    {
        let piece = whole_width(b);
        Part {
            piece,
            left: cross_at(b, piece.z0),
        }
    }

    // The left half starts where the whole piece does.
    pub fn left_half(self) -> Part
        ensures { result ≡ steps.left_half self }
    {
        let p = self.piece;
        let piece = Piece {
            z0: p.z0,
            z1: (p.z0 + p.z1) * 0.5,
        };
        Part {
            piece,
            left: self.left,
        }
    }

    pub fn right_half(self, b: RadialBand) -> Part
        ensures { result ≡ steps.right_half b self }
    {
        let p = self.piece;
        let mid = (p.z0 + p.z1) * 0.5;
        let piece = Piece { z0: mid, z1: p.z1 };
        Part {
            piece,
            left: cross_at(b, mid),
        }
    }
}
