// Where the computed points of a segment, and of a box's sides, lie along one axis.
ghost use Rattle.std.specs.Prelude.{◌≡◌};
ghost use Rattle.section.specs.ranges.Ranges.{range_of, ranges_of, joined, sides_range, sides_of};

use super::shapes::{Range, Sides};
use crate::profile::{Aabb, Vertex};

// The points a + (b - a) s, for s from 0 to 1.
pub fn range_of(a: f64, b: f64) -> Range
    ensures { result ≡ range_of a b }
{
    let d = b - a;
    if arith::is_finite(d) {
        if d < 0.0 {
            return Range { lo: a + d, hi: a };
        }
        return Range { lo: a, hi: a + d };
    }
    let top = arith::infinity();
    Range { lo: -top, hi: top }
}

pub fn join(g: Range, h: Range) -> Range
    ensures { result ≡ joined g h }
{
    Range {
        lo: arith::min(g.lo, h.lo),
        hi: arith::max(g.hi, h.hi),
    }
}

fn sides_range(a: f64, b: f64) -> Range
    ensures { result ≡ sides_range a b }
{
    join(range_of(a, b), range_of(b, a))
}

// The points of the four sides of a box.
pub fn sides_of(x: Aabb) -> Sides
    ensures { result ≡ sides_of x }
{
    Sides {
        z: sides_range(x.z0, x.z1),
        r: sides_range(x.r0, x.r1),
    }
}

// The points of a segment from a to b.
pub fn ranges_of(a: Vertex, b: Vertex) -> Sides
    ensures { result ≡ ranges_of a b }
{
    Sides {
        z: range_of(a.z, b.z),
        r: range_of(a.r, b.r),
    }
}
