// What lets an edge be passed over: how far it lies from the body along one axis, and that no clip is left.
ghost use Rattle.std.specs.Prelude.{◌≡◌, true, None};
ghost use Rattle.section.specs.segments.Clip.{clip};
ghost use Rattle.section.specs.ranges.Ranges.{range, range_of, far_apart, gap_between, side_misses, misses_along};
ghost use Rattle.section.specs.ranges.Hull.{FarOff};

use super::range::range_of;
use super::shapes::{Range, Sides};
use crate::profile::{Aabb, Vertex};
use crate::segments::too_far;

// How far two ranges lie apart, 0 where they do not.
pub fn gap_between(g: Range, h: Range) -> f64
    ensures { result ≡ gap_between g h }
{
    let over = g.lo - h.hi;
    if over > 0.0 {
        return over;
    }
    let under = h.lo - g.hi;
    if under > 0.0 {
        return under;
    }
    0.0
}

// The points of a segment from a to b lie at least this far from x, along one axis.
pub fn far_from(least: f64, a: f64, b: f64, x: f64) -> bool
    ensures { result ≡ true → far_apart least (range x x) (range_of a b) ≡ true }
{
    let d = b - a;
    let end = a + d;
    if a - x >= least {
        if end - x >= least {
            return arith::is_finite(d);
        }
        return false;
    }
    if x - a >= least {
        if x - end >= least {
            return arith::is_finite(d);
        }
    }
    false
}

// The points of the segment from a to b lie at least this far from those in `sides`.
pub fn far_off(a: Vertex, b: Vertex, sides: Sides, least: f64) -> bool
    ensures { result ≡ true → FarOff least a b sides }
{
    let z = gap_between(range_of(a.z, b.z), sides.z);
    if z >= least {
        return true;
    }
    let r = gap_between(range_of(a.r, b.r), sides.r);
    too_far(z, r, least)
}

// This side of the box alone leaves nothing of a segment.
fn side_misses(p: f64, q: f64) -> bool
    ensures { result ≡ side_misses p q }
{
    if q >= 0.0 {
        return false;
    }
    if arith::abs(p) <= 1e-18 {
        return q < -1e-15;
    }
    if p < 0.0 {
        return q / p > 1.0;
    }
    q / p < 0.0
}

// One of the two sides across one axis does so: the segment runs from a to b, the box from lo to hi.
#[tactic(auto, unfolding(crate::specs::ranges::Ranges::misses_along))]
pub fn misses_along(a: f64, b: f64, lo: f64, hi: f64) -> bool
    ensures { result ≡ misses_along a b lo hi }
{
    let d = b - a;
    side_misses(-d, a - lo) || side_misses(d, hi - a)
}

// One side of the box alone leaves nothing of the segment from a to b.
pub fn misses_box(a: Vertex, b: Vertex, x: Aabb) -> bool
    ensures { result ≡ true → clip x a b ≡ None }
{
    misses_along(a.z, b.z, x.z0, x.z1) || misses_along(a.r, b.r, x.r0, x.r1)
}
