// The distance of a point and of a sphere to the section, and its sign.
ghost use Rattle.std.specs.Prelude.{◌≡◌, ◌<◌, ◌≤◌};
ghost use Rattle.std.specs.Float.Ieee.{unlike};
ghost use Rattle.section.specs.profile.Vertices.{count, vertex, vertex_at, end_at, any};
ghost use Rattle.section.specs.points.Points as points;
ghost use Rattle.section.specs.points.Points.{crosses, point_inside, inside_axis_edge, in_section};
ghost use Rattle.section.specs.points.Points.{point_distance, sphere_distance};

use crate::points::{edge_is_surface, surface_near};
use crate::profile::{CollisionHit, Sphere, Vertex, any_edge, end_at, vertex_at};
use crate::segments::BOUNDARY;
use arith::Vec3;

// The edge crosses the line from p along z, beyond p.
pub fn crosses(p: Vertex, a: Vertex, b: Vertex) -> bool
    ensures { result ≡ crosses p a b }
{
    let pr = p.r;
    let ar = a.r;
    let br = b.r;
    if (ar > pr) == (br > pr) {
        return false;
    }
    let denom = br - ar;
    if arith::abs(denom) <= 1e-18 {
        return false;
    }
    a.z + (b.z - a.z) * (pr - ar) / denom > p.z
}

fn odd_step(s: &[f64], p: Vertex, k: usize, odd: bool) -> bool
    requires { k < count s.now }
    ensures { result ≡ unlike odd (crosses p (vertex_at s.now k) (end_at s.now k)) }
{
    odd != crosses(p, vertex_at(s, k), end_at(s, k))
}

fn point_inside(s: &[f64], p: Vertex) -> bool
    ensures { result ≡ point_inside s.now p }
{
    let n = s.len() / 2;
    let mut odd = false;
    for k in 0..n {
        odd = odd_step(s, p, k, odd);
    }
    odd
}

fn inside_axis_edge(z: f64, a: Vertex, b: Vertex) -> bool
    ensures { result ≡ inside_axis_edge z a b }
{
    if edge_is_surface(a, b) {
        return false;
    }
    let z0 = arith::min(a.z, b.z);
    let z1 = arith::max(a.z, b.z);
    z > z0 + 1e-9 && z < z1 - 1e-9
}

fn on_axis(s: &[f64], z: f64) -> bool
    ensures { let l = s.now in result ≡ any (λ k. inside_axis_edge z (vertex_at l k) (end_at l k)) (count l) }
{
    any_edge(s, |a, b| inside_axis_edge(z, a, b))
}

#[tactic(auto, unfolding(crate::specs::points::Points::in_section))]
pub fn in_section(s: &[f64], p: Vertex) -> bool
    ensures { result ≡ in_section s.now p }
{
    point_inside(s, p) || (p.r <= 1e-8 && on_axis(s, p.z))
}

// The point (z, r), as two numbers: a Vertex just written is slow to read as a whole.
fn signed_distance_at(s: &[f64], z: f64, r: f64) -> CollisionHit
    requires { 3 ≤ count s.now }
    ensures { result ≡ point_distance s.now (vertex z r) }
{
    let p = Vertex { z, r };
    let near = surface_near(s, p);
    let best = near.distance;
    let witness = near.witness;
    if arith::is_finite(best) {
        if best <= BOUNDARY {
            return CollisionHit {
                distance: 0.0,
                witness,
            };
        }
        if in_section(s, p) {
            return CollisionHit {
                distance: -best,
                witness,
            };
        }
        return near;
    }
    CollisionHit {
        distance: arith::infinity(),
        witness,
    }
}

pub fn signed_distance_2d(s: &[f64], p: Vertex) -> CollisionHit
    requires { 3 ≤ count s.now }
    ensures { result ≡ point_distance s.now p }
{
    signed_distance_at(s, p.z, p.r)
}

// Where a point of space lies in its half-plane.
pub fn meridian(p: Vec3) -> Vertex
    ensures { result ≡ points.meridian p }
{
    Vertex {
        z: p.z,
        r: arith::hypot(p.x, p.y),
    }
}

pub fn sphere_distance(s: &[f64], sphere: Sphere) -> CollisionHit
    requires { 3 ≤ count s.now }
    ensures { result ≡ sphere_distance s.now sphere }
{
    let radius = sphere.radius;
    let center = sphere.center;
    let near = signed_distance_2d(s, meridian(center));
    let witness = near.witness;
    CollisionHit {
        distance: near.distance - radius,
        witness,
    }
}
