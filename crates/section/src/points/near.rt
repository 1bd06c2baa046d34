// The closest point on the section. An edge that along one axis is no nearer than the best so far is passed
// over, one that along both is as far as the best needs no root, and the edge that is likely the nearest is
// tried first.
ghost use Rattle.std.specs.Prelude.{◌≡◌, true, false, cond, ◌<◌, ◌≤◌};
ghost use Rattle.arith.specs.F64.{◌≺◌};
ghost use Rattle.section.specs.profile.Vertices.{count, nearer, upto, vertex};
ghost use Rattle.section.specs.segments.Segments.{apart, closest, closest_point};
ghost use Rattle.section.specs.points.Points.{edge_is_surface, surface_step, surface_near};
ghost use Rattle.section.specs.points.Steps.{no_edge, SurfaceFrom};

use crate::profile::{CollisionHit, Edge, Vertex, edge_at, on, vertex_at};
use crate::ranges::{far_from, likely_edge_at, start_over};
use crate::segments::{Near, legless, nearer_near, point_segment};

// An edge with both ends on the axis is no surface.
pub fn edge_is_surface(a: Vertex, b: Vertex) -> bool
    ensures { result ≡ edge_is_surface a b }
{
    arith::abs(a.r) > 1e-9 || arith::abs(b.r) > 1e-9
}

// The edge from a to b is not nearer to (z, r) than this, as one axis alone tells.
fn passed_over(z: f64, r: f64, a: Vertex, b: Vertex, least: f64) -> bool
    ensures { result ≡ true → (apart (vertex z r) (closest_point (vertex z r) a b) ≺ least) ≡ false }
{
    far_from(least, a.z, b.z, z) || far_from(least, a.r, b.r, r)
}

// The edge, if it counts, lowers the distance that best has. Small enough for every loop to take it in, so that
// best stays in registers.
fn surface_edge(p: Vertex, edge: Edge, counts: bool, best: Near) -> Near
    ensures { result.hit ≡ cond counts (nearer best.hit (closest p edge)) best.hit }
{
    if counts {
        return point_segment(p, edge, best);
    }
    best
}

// Edge k may lower it for the point (z, r).
fn surface_step(s: &[f64], z: f64, r: f64, k: usize, best: Near) -> Near
    requires { k < count s.now }
    ensures { result.hit ≡ surface_step s.now (vertex z r) k best.hit }
{
    let edge = edge_at(s, k);
    if passed_over(z, r, edge.a, edge.b, best.hit.distance) {
        return best;
    }
    surface_edge(Vertex { z, r }, edge, edge_is_surface(edge.a, edge.b), best)
}

// Edges from this one up to that one may lower it.
fn surface_from(s: &[f64], p: Vertex, from: usize, to: usize, start: Near) -> Near
    requires { (from ≤ to) × (to ≤ count s.now) }
    ensures { SurfaceFrom s.now p from to start.hit result.hit }
{
    let z = p.z;
    let r = p.r;
    let mut best = start;
    for k in from..to {
        best = surface_step(s, z, r, k, best);
    }
    best
}

// All edges in turn: beside few vertices a look at their ranges costs more than it saves.
fn surface_few(s: &[f64], p: Vertex, none: CollisionHit) -> CollisionHit
    ensures { let l = s.now in result ≡ upto (surface_step l p) none (count l) }
{
    let n = s.len() / 2;
    let mut best = legless(none);
    for k in 0..n {
        let edge = edge_at(s, k);
        best = surface_edge(p, edge, edge_is_surface(edge.a, edge.b), best);
    }
    best.hit
}

// No edge counts.
fn no_edge(s: &[f64]) -> CollisionHit
    requires { 0 < count s.now }
    ensures { result ≡ no_edge s.now }
{
    CollisionHit {
        distance: arith::infinity(),
        witness: on(0, vertex_at(s, 0)),
    }
}

// Edge k alone.
pub fn surface_first(s: &[f64], p: Vertex, k: usize) -> Near
    requires { k < count s.now }
    ensures { result.hit ≡ surface_step s.now p k (no_edge s.now) }
{
    let edge = edge_at(s, k);
    surface_edge(
        p,
        edge,
        edge_is_surface(edge.a, edge.b),
        legless(no_edge(s)),
    )
}

// All edges, of which edge k has been tried.
pub fn surface_rest(s: &[f64], p: Vertex, k: usize, first: Near) -> CollisionHit
    requires { (k < count s.now) × (first.hit ≡ surface_step s.now p k (no_edge s.now)) }
    ensures { result ≡ surface_near s.now p }
{
    let n = s.len() / 2;
    let after = k + 1;
    let start = legless(start_over(first.hit, no_edge(s)));
    let before = surface_from(s, p, 0, k, start);
    let best = nearer_near(before, first);
    let found = surface_from(s, p, after, n, best);
    found.hit
}

pub fn surface_near(s: &[f64], p: Vertex) -> CollisionHit
    requires { 3 ≤ count s.now }
    ensures { result ≡ surface_near s.now p }
{
    let n = s.len() / 2;
    if n < 8 {
        return surface_few(s, p, no_edge(s));
    }
    let k = likely_edge_at(s, p);
    surface_rest(s, p, k, surface_first(s, p, k))
}
