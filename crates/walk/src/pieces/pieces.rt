// A piece of the cylinder's width: its box and its variation.
ghost use Rattle.std.specs.Prelude.{◌≡◌};
ghost use Rattle.walk.specs.pieces.Pieces as pieces;
ghost use Rattle.walk.specs.pieces.Pieces.{box_of, variation_of};

use super::shapes::{Piece, Spans};
use crate::bands::RadialBand;
use section::Aabb;

pub fn whole_width(b: RadialBand) -> Piece
    ensures { result ≡ pieces.whole_width b }
{
    Piece {
        z0: b.zc - b.radius,
        z1: b.zc + b.radius,
    }
}

pub fn box_of(p: Piece, spans: Spans) -> Aabb
    ensures { result ≡ box_of p spans }
{
    let w = spans.widest;
    let n = spans.narrowest;
    Aabb {
        z0: p.z0,
        z1: p.z1,
        r0: arith::min(w.lo, n.lo),
        r1: arith::max(w.hi, n.hi),
    }
}

pub fn variation_of(spans: Spans) -> f64
    ensures { result ≡ variation_of spans }
{
    let w = spans.widest;
    let n = spans.narrowest;
    let lower = arith::max(w.lo, n.lo) - arith::min(w.lo, n.lo);
    let upper = arith::max(w.hi, n.hi) - arith::min(n.hi, w.hi);
    arith::max(arith::max(lower, upper), 0.0)
}
