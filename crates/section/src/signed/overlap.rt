// What boxes and convex bodies share: the depth at a probe, and the result.
ghost use Rattle.std.specs.Prelude.{◌≡◌, true, ◌≤◌};
ghost use Rattle.arith.specs.F64.{◌≼◌, 𝟘};
ghost use Rattle.section.specs.profile.Vertices.{count, nearer};
ghost use Rattle.section.specs.points.Points.{in_section, point_distance};
ghost use Rattle.section.specs.points.Overlap.{result_of};

use super::distance::{in_section, signed_distance_2d};
use crate::points::{surface_first, surface_rest};
use crate::profile::{CollisionHit, Vertex, nearer_of};
use crate::ranges::likely_edge_at;
use crate::segments::{BOUNDARY, INTERIOR};

// The section may be deeper at p, which lies inside. It is not where one edge is as near as the best is
// deep: the likeliest is tried first.
pub fn deeper_inside(s: &[f64], p: Vertex, best: CollisionHit) -> CollisionHit
    requires { (3 ≤ count s.now) × (in_section s.now p ≡ true) × ((best.distance ≼ 𝟘) ≡ true) }
    ensures { result ≡ nearer best (point_distance s.now p) }
{
    let k = likely_edge_at(s, p);
    let first = surface_first(s, p, k);
    if first.hit.distance <= -best.distance {
        return best;
    }
    let near = surface_rest(s, p, k, first);
    let depth = near.distance;
    let witness = near.witness;
    if arith::is_finite(depth) {
        if depth <= BOUNDARY {
            return best;
        }
        let new = CollisionHit {
            distance: -depth,
            witness,
        };
        return nearer_of(best, new);
    }
    best
}

// The section may be deeper at p. Outside it is not below 0, and needs no distance.
pub fn deeper_at(s: &[f64], p: Vertex, best: CollisionHit) -> CollisionHit
    requires { 3 ≤ count s.now }
    ensures { result ≡ nearer best (point_distance s.now p) }
{
    if best.distance <= 0.0 {
        if in_section(s, p) {
            return deeper_inside(s, p, best);
        }
        return best;
    }
    nearer_of(best, signed_distance_2d(s, p))
}

pub fn result_of(penetration: f64, overlaps: bool, gap: f64) -> f64
    ensures { result ≡ result_of penetration overlaps gap }
{
    if penetration < -INTERIOR {
        return penetration;
    }
    if overlaps {
        return -1e-8;
    }
    if gap <= BOUNDARY { 0.0 } else { gap }
}
