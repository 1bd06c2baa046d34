// A hit with its legs: what is at least as far along both axes is not nearer, and needs no root.
ghost use Rattle.std.specs.Prelude.{◌≡◌, true, false};
ghost use Rattle.arith.specs.F64.{◌≺◌, 𝟘};
ghost use Rattle.section.specs.profile.Vertices as profile;
ghost use Rattle.section.specs.profile.Vertices.{hit};
ghost use Rattle.section.specs.segments.Segments.{apart};
ghost use Rattle.section.specs.segments.Hopeless.{Hopeless};
ghost use Rattle.section.specs.segments.Legs.{Nearest};

use super::segment::nearer_between;
use super::shapes::Near;
use crate::profile::{CollisionHit, Vertex};

// A hit whose legs tell nothing.
pub fn legless(hit: CollisionHit) -> Near
    ensures { result.hit ≡ hit }
{
    let top = arith::infinity();
    Near {
        hit,
        z: top,
        r: top,
    }
}

pub fn nearer_near(best: Near, new: Near) -> Near
    ensures { Nearest best new.hit result }
{
    if new.hit.distance < best.hit.distance {
        new
    } else {
        best
    }
}

// Legs of at least z and r have no hypot below this: one of them tells it, or the sum of their squares.
pub fn too_far(z: f64, r: f64, least: f64) -> bool
    requires { ((z ≺ 𝟘) ≡ false) × ((r ≺ 𝟘) ≡ false) }
    ensures { result ≡ true → Hopeless z r least }
{
    if z >= least {
        return true;
    }
    if r >= least {
        return true;
    }
    z * z + r * r > least * least * 1.0000000000001 + 1e-300
}

// They have none below the best, as its legs tell, or its distance.
pub fn hopeless(z: f64, r: f64, best: Near) -> bool
    requires { ((z ≺ 𝟘) ≡ false) × ((r ≺ 𝟘) ≡ false) }
    ensures { result ≡ true → Hopeless z r best.hit.distance }
{
    if z >= best.z {
        if r >= best.r {
            return true;
        }
    }
    too_far(z, r, best.hit.distance)
}

// The point w of edge k, at the distance of p and q, may be nearer than the best.
pub fn nearer_legs(best: Near, p: Vertex, q: Vertex, k: usize, w: Vertex) -> Near
    ensures { Nearest best (hit (apart p q) (profile.on k w)) result }
{
    let known = best.hit;
    let z = arith::abs(p.z - q.z);
    let r = arith::abs(p.r - q.r);
    if z >= best.z {
        if r >= best.r {
            return best;
        }
    }
    let hit = nearer_between(known, p, q, k, w);
    if hit.distance < known.distance {
        return Near { hit, z, r };
    }
    best
}
