// The closest point of a segment to a point, and of two segments.
ghost use Rattle.std.specs.Prelude.{◌≡◌, cond};
ghost use Rattle.std.specs.Float.Ieee.{neg};
ghost use Rattle.arith.specs.F64.{◌⊕◌, ◌⊗◌, ◌⊘◌, ◌≺◌, 𝟘, e_18};
ghost use Rattle.arith.specs.Num as num;
ghost use Rattle.section.specs.profile.Vertices as profile;
ghost use Rattle.section.specs.profile.Vertices.{vertex, hit, nearer};
ghost use Rattle.section.specs.segments.Segments.{dot, along, apart, unit_clamp, closest_point, closest};
ghost use Rattle.section.specs.segments.Segments.{places, closest_places, segments};
ghost use Rattle.section.specs.segments.Legs.{Nearest};

use super::near::nearer_legs;
use super::shapes::{Near, Places};
use crate::profile::{CollisionHit, Edge, Vertex, on};

fn dot2(a: Vertex, b: Vertex) -> f64
    ensures { result ≡ dot a b }
{
    a.z * b.z + a.r * b.r
}

pub fn lerp(a: Vertex, b: Vertex, t: f64) -> Vertex
    ensures { result ≡ along a b t }
{
    Vertex {
        z: a.z + (b.z - a.z) * t,
        r: a.r + (b.r - a.r) * t,
    }
}

// a + t d
fn advance(a: Vertex, d: Vertex, t: f64) -> Vertex
    ensures { result ≡ vertex (a.z ⊕ d.z ⊗ t) (a.r ⊕ d.r ⊗ t) }
{
    Vertex {
        z: a.z + d.z * t,
        r: a.r + d.r * t,
    }
}

// The point w of edge k, at the distance of p and q, where that is less than best. A hypot is no less than
// either leg, and its square about the sum of theirs, so that most need no root.
pub fn nearer_between(best: CollisionHit, p: Vertex, q: Vertex, k: usize, w: Vertex) -> CollisionHit
    ensures { result ≡ nearer best (hit (apart p q) (profile.on k w)) }
{
    let least = best.distance;
    let dz = p.z - q.z;
    if arith::abs(dz) >= least {
        return best;
    }
    let dr = p.r - q.r;
    if arith::abs(dr) >= least {
        return best;
    }
    if dz * dz + dr * dr > least * least * 1.0000000000001 + 1e-300 {
        return best;
    }
    let distance = arith::hypot(dz, dr);
    if distance < least {
        return CollisionHit {
            distance,
            witness: on(k, w),
        };
    }
    best
}

// The lesser of best and the distance of p and q; a NaN leg is left to hypot.
pub fn closer_between(best: f64, p: Vertex, q: Vertex) -> f64
    ensures { result ≡ num.min best (apart p q) }
{
    let dz = p.z - q.z;
    let dr = p.r - q.r;
    if dr == dr {
        if arith::abs(dz) >= best {
            return best;
        }
    }
    if dz == dz {
        if arith::abs(dr) >= best {
            return best;
        }
    }
    arith::min(best, arith::hypot(dz, dr))
}

fn unit_clamp(t: f64) -> f64
    ensures { result ≡ unit_clamp t }
{
    arith::clamp(t, 0.0, 1.0)
}

pub fn closest_point(p: Vertex, a: Vertex, b: Vertex) -> Vertex
    ensures { result ≡ closest_point p a b }
{
    let az = a.z;
    let ar = a.r;
    let dz = b.z - az;
    let dr = b.r - ar;
    let len2 = dz * dz + dr * dr;
    if len2 <= 1e-24 {
        return a;
    }
    let t = unit_clamp(((p.z - az) * dz + (p.r - ar) * dr) / len2);
    Vertex {
        z: az + dz * t,
        r: ar + dr * t,
    }
}

// The edge may be nearer to p.
pub fn point_segment(p: Vertex, edge: Edge, best: Near) -> Near
    ensures { Nearest best (closest p edge) result }
{
    let q = closest_point(p, edge.a, edge.b);
    nearer_legs(best, p, q, edge.number, q)
}

// Where on the first segment to start: 0 where the two are nearly parallel.
fn start_place(top: f64, denom: f64) -> f64
    ensures { result ≡ cond (e_18 ≺ num.abs denom) (unit_clamp (top ⊘ denom)) 𝟘 }
{
    if arith::abs(denom) > 1e-18 {
        return unit_clamp(top / denom);
    }
    0.0
}

fn at_first_end(a: f64, c: f64) -> Places
    ensures { result ≡ places (unit_clamp (neg c ⊘ a)) 𝟘 }
{
    Places {
        s: unit_clamp(-c / a),
        t: 0.0,
    }
}

fn closest_places(a: f64, b: f64, c: f64, e: f64, f: f64) -> Places
    ensures { result ≡ closest_places a b c e f }
{
    if a <= 1e-24 {
        if e <= 1e-24 {
            return Places { s: 0.0, t: 0.0 };
        }
        return Places {
            s: 0.0,
            t: unit_clamp(f / e),
        };
    }
    if e <= 1e-24 {
        return at_first_end(a, c);
    }
    let s = start_place(b * f - c * e, a * e - b * b);
    let t = (b * s + f) / e;
    if t < 0.0 {
        return at_first_end(a, c);
    }
    if t > 1.0 {
        return Places {
            s: unit_clamp((b - c) / a),
            t: 1.0,
        };
    }
    Places { s, t }
}

// The second segment may be nearer to the edge, at a point of the edge.
pub fn seg_seg_point_on_first(edge: Edge, p2: Vertex, q2: Vertex, best: Near) -> Near
    ensures { Nearest best (segments edge p2 q2) result }
{
    let p1 = edge.a;
    let q1 = edge.b;
    let d1 = Vertex {
        z: q1.z - p1.z,
        r: q1.r - p1.r,
    };
    let d2 = Vertex {
        z: q2.z - p2.z,
        r: q2.r - p2.r,
    };
    let r = Vertex {
        z: p1.z - p2.z,
        r: p1.r - p2.r,
    };
    let at = closest_places(
        dot2(d1, d1),
        dot2(d1, d2),
        dot2(d1, r),
        dot2(d2, d2),
        dot2(d2, r),
    );
    let on_first = advance(p1, d1, at.s);
    let on_second = advance(p2, d2, at.t);
    nearer_legs(best, on_first, on_second, edge.number, on_first)
}
