// The part of a segment that a box holds (Liang-Barsky).
ghost use Rattle.std.specs.Prelude.{◌≡◌, cond, None, Some};
ghost use Rattle.arith.specs.F64.{◌≺◌};
ghost use Rattle.section.specs.segments.Clip.{part, clip_side, clip};

use super::shapes::Part;
use crate::profile::{Aabb, Vertex};

// The segment comes in at t.
fn enter_at(t: f64, c: Part) -> Option<Part>
    ensures { result ≡ cond (c.t1 ≺ t) None (cond (c.t0 ≺ t) (Some (part t c.t1)) (Some c)) }
{
    if t > c.t1 {
        return None;
    }
    if t > c.t0 {
        return Some(Part { t0: t, t1: c.t1 });
    }
    Some(c)
}

// The segment goes out at t.
fn leave_at(t: f64, c: Part) -> Option<Part>
    ensures { result ≡ cond (t ≺ c.t0) None (cond (t ≺ c.t1) (Some (part c.t0 t)) (Some c)) }
{
    if t < c.t0 {
        return None;
    }
    if t < c.t1 {
        return Some(Part { t0: c.t0, t1: t });
    }
    Some(c)
}

// One side of the box cuts what is left of the segment.
#[tactic(auto, unfolding(crate::specs::segments::Clip::clip_side))]
fn clip_side(p: f64, q: f64, c: Part) -> Option<Part>
    ensures { result ≡ clip_side p q c }
{
    if arith::abs(p) <= 1e-18 {
        if q < -1e-15 {
            return None;
        }
        return Some(c);
    }
    if p < 0.0 {
        return enter_at(q / p, c);
    }
    leave_at(q / p, c)
}

#[tactic(auto, unfolding(crate::specs::segments::Clip::clip))]
pub fn clip_segment(a: Vertex, b: Vertex, x: Aabb) -> Option<Part>
    ensures { result ≡ clip x a b }
{
    let dz = b.z - a.z;
    let dr = b.r - a.r;
    let whole = Part { t0: 0.0, t1: 1.0 };
    let after_z0 = clip_side(-dz, a.z - x.z0, whole)?;
    let after_z1 = clip_side(dz, x.z1 - a.z, after_z0)?;
    let after_r0 = clip_side(-dr, a.r - x.r0, after_z1)?;
    let after_r1 = clip_side(dr, x.r1 - a.r, after_r0)?;
    if after_r1.t0 > after_r1.t1 {
        return None;
    }
    Some(after_r1)
}
