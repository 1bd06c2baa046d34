// The gap between a section and a convex body, over all pairs of edges. A pair that likely is near is tried
// first. Edges of the section before the first and after the last that may be as near to the body need no
// look, nor does a pair whose ranges lie as far apart.
ghost use Rattle.std.specs.Prelude.{◌≡◌, true, ◌<◌, ◌≤◌};
ghost use Rattle.section.specs.profile.Vertices.{count, vertex_at, end_at, edge_at, nearer, upto};
ghost use Rattle.section.specs.segments.Segments.{segments};
ghost use Rattle.section.specs.ranges.Hull.{FarOff};
ghost use Rattle.section.specs.ranges.Ranges.{ranges_of};
ghost use Rattle.section.specs.convex.Convex.{convex_row, convex_gap};
ghost use Rattle.section.specs.convex.Steps.{FarBefore, FarAfter, OfPair, Window};

use crate::profile::{Aabb, CollisionHit, Vertex, edge_at, end_at, on, vertex_at};
use crate::ranges::{Sides, far_off, hull_of, likely_edge, likely_edge_at, ranges_of, start_over};
use crate::segments::{legless, seg_seg_point_on_first};

// Edge j of the section may be nearer to the edge from a to b, whose points lie in `sides`.
fn nearer_edge(
    s: &[f64],
    j: usize,
    a: Vertex,
    b: Vertex,
    sides: Sides,
    best: CollisionHit,
) -> CollisionHit
    requires { (j < count s.now) × (sides ≡ ranges_of a b) }
    ensures { result ≡ nearer best (segments (edge_at s.now j) a b) }
{
    let edge = edge_at(s, j);
    if far_off(edge.a, edge.b, sides, best.distance) {
        return best;
    }
    let found = seg_seg_point_on_first(edge, a, b, legless(best));
    found.hit
}

// Edges of the section from this one up to that one may be nearer to edge i of the convex body.
fn convex_row(
    c: &[f64],
    s: &[f64],
    i: usize,
    from: usize,
    to: usize,
    start: CollisionHit,
) -> CollisionHit
    requires { (i < count c.now) × Window c.now s.now from to start.distance }
    ensures { result ≡ convex_row c.now s.now i start }
{
    let a = vertex_at(c, i);
    let b = end_at(c, i);
    let sides = ranges_of(a, b);
    let mut best = start;
    for j in from..to {
        best = nearer_edge(s, j, a, b, sides, best);
    }
    best
}

fn convex_rows(c: &[f64], s: &[f64], from: usize, to: usize, start: CollisionHit) -> CollisionHit
    requires { Window c.now s.now from to start.distance }
    ensures { result ≡ upto (convex_row c.now s.now) start (count c.now) }
{
    let n = c.len() / 2;
    let mut best = start;
    for i in 0..n {
        best = convex_row(c, s, i, from, to, best);
    }
    best
}

fn far_at(s: &[f64], j: usize, hull: Sides, least: f64) -> bool
    requires { j < count s.now }
    ensures { result ≡ true → FarOff least (vertex_at s.now j) (end_at s.now j) hull }
{
    far_off(vertex_at(s, j), end_at(s, j), hull, least)
}

// The first edge of the section that may be as near as this to the hull.
fn near_from(s: &[f64], hull: Sides, least: f64) -> usize
    ensures { FarBefore s.now hull least result }
{
    let m = s.len() / 2;
    for j in 0..m {
        if !far_at(s, j, hull, least) {
            return j;
        }
    }
    m
}

// The last such edge, and one more.
fn near_to(s: &[f64], hull: Sides, least: f64, from: usize) -> usize
    requires { from ≤ count s.now }
    ensures { FarAfter s.now hull least from result }
{
    let m = s.len() / 2;
    for j in (from..m).rev() {
        if !far_at(s, j, hull, least) {
            return j + 1;
        }
    }
    from
}

// A pair that is likely near.
fn likely_pair(c: &[f64], s: &[f64], hull: Sides, none: CollisionHit) -> CollisionHit
    requires { (3 ≤ count c.now) × (3 ≤ count s.now) }
    ensures { OfPair c.now s.now none result }
{
    let x = Aabb {
        z0: hull.z.lo,
        z1: hull.z.hi,
        r0: hull.r.lo,
        r1: hull.r.hi,
    };
    let j = likely_edge(s, x);
    let i = likely_edge_at(c, vertex_at(s, j));
    let found = seg_seg_point_on_first(edge_at(s, j), vertex_at(c, i), end_at(c, i), legless(none));
    found.hit
}

pub fn convex_gap(c: &[f64], s: &[f64]) -> CollisionHit
    requires { (3 ≤ count c.now) × (3 ≤ count s.now) }
    ensures { result ≡ convex_gap c.now s.now }
{
    let none = CollisionHit {
        distance: arith::infinity(),
        witness: on(0, vertex_at(s, 0)),
    };
    let hull = hull_of(c);
    let first = likely_pair(c, s, hull, none);
    let start = start_over(first, none);
    let least = start.distance;
    let from = near_from(s, hull, least);
    let to = near_to(s, hull, least, from);
    convex_rows(c, s, from, to, start)
}
