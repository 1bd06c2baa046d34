// Convex body distance: the depth at the vertices of both, the search for a proper crossing, and with the
// gap the whole.
ghost use Rattle.std.specs.Prelude.{◌≡◌, true, false, not, ◌&&◌, ◌<◌, ◌≤◌};
ghost use Rattle.std.specs.Float.Ieee.{neg};
ghost use Rattle.arith.specs.F64.{◌⊗◌, ◌≺◌, 𝟘, e_9};
ghost use Rattle.arith.specs.Num as num;
ghost use Rattle.section.specs.profile.Vertices as profile;
ghost use Rattle.section.specs.profile.Vertices.{hit, count, vertex_at, end_at, edge_at, nearer, nearest_of};
ghost use Rattle.section.specs.segments.Segments.{closest};
ghost use Rattle.section.specs.points.Points.{point_distance};
ghost use Rattle.section.specs.convex.Convex.{orient, point_in_convex, convex_near, signed_distance_convex};
ghost use Rattle.section.specs.convex.Convex.{convex_penetration, proper_cross, any_cross, convex_distance};

use super::gap::convex_gap;
use crate::profile::{CollisionHit, Vertex, Witness, end_at, nearer_of, on, vertex_at};
use crate::segments::{BOUNDARY, INTERIOR, closer_between, closest_point};
use crate::signed::{deeper_at, result_of};

pub fn orient(a: Vertex, b: Vertex, p: Vertex) -> f64
    ensures { result ≡ orient a b p }
{
    (b.z - a.z) * (p.r - a.r) - (b.r - a.r) * (p.z - a.z)
}

fn orient_at(c: &[f64], p: Vertex, k: usize) -> f64
    requires { k < count c.now }
    ensures { result ≡ orient (vertex_at c.now k) (end_at c.now k) p }
{
    orient(vertex_at(c, k), end_at(c, k), p)
}

fn share_a_sign(c: &[f64], p: Vertex) -> bool
    ensures { result ≡ point_in_convex c.now p }
{
    let n = c.len() / 2;
    let mut left = false;
    let mut right = false;
    for k in 0..n {
        let cross = orient_at(c, p, k);
        left = left | (cross > 1e-9);
        right = right | (cross < -1e-9);
        if left & right {
            return false;
        }
    }
    true
}

// The point lies on different sides of edges i and k.
fn parted(c: &[f64], p: Vertex, i: usize, k: usize) -> bool
    requires { (i < count c.now) × (k < count c.now) }
    ensures { result ≡ true → point_in_convex c.now p ≡ false }
{
    let first = orient_at(c, p, i);
    let second = orient_at(c, p, k);
    if first > 1e-9 {
        return second < -1e-9;
    }
    if second > 1e-9 {
        return first < -1e-9;
    }
    false
}

// Of a point outside, most often two edges that face each other tell it.
pub fn point_in_convex(c: &[f64], p: Vertex) -> bool
    ensures { result ≡ point_in_convex c.now p }
{
    let n = c.len() / 2;
    if n > 0 {
        if parted(c, p, 0, n / 2) {
            return false;
        }
    }
    share_a_sign(c, p)
}

// Edge k may be closer to p.
fn closer_edge(c: &[f64], p: Vertex, k: usize, best: f64) -> f64
    requires { k < count c.now }
    ensures { result ≡ num.min best (closest p (edge_at c.now k)).distance }
{
    let q = closest_point(p, vertex_at(c, k), end_at(c, k));
    closer_between(best, p, q)
}

fn convex_near(c: &[f64], p: Vertex) -> f64
    ensures { result ≡ convex_near c.now p }
{
    let n = c.len() / 2;
    let mut best = arith::infinity();
    for k in 0..n {
        best = closer_edge(c, p, k, best);
    }
    best
}

pub fn signed_distance_convex(c: &[f64], p: Vertex) -> f64
    ensures { result ≡ signed_distance_convex c.now p }
{
    let best = convex_near(c, p);
    if !arith::is_finite(best) {
        return 0.0;
    }
    if best <= BOUNDARY {
        return 0.0;
    }
    if point_in_convex(c, p) { -best } else { best }
}

// The section may be deeper at vertex i of the convex body.
fn deeper_corner(c: &[f64], s: &[f64], i: usize, best: CollisionHit) -> CollisionHit
    requires { (i < count c.now) × (3 ≤ count s.now) }
    ensures { result ≡ nearer best (point_distance s.now (vertex_at c.now i)) }
{
    deeper_at(s, vertex_at(c, i), best)
}

fn deepest_corner(c: &[f64], s: &[f64], witness: Witness) -> CollisionHit
    requires { 3 ≤ count s.now }
    ensures { result ≡
        nearest_of (λ i. point_distance s.now (vertex_at c.now i)) (hit 𝟘 witness)
        (count c.now) }
{
    let n = c.len() / 2;
    let mut best = CollisionHit {
        distance: 0.0,
        witness: witness,
    };
    for i in 0..n {
        best = deeper_corner(c, s, i, best);
    }
    best
}

fn deeper_point(c: &[f64], k: usize, v: Vertex, best: CollisionHit) -> CollisionHit
    ensures { result ≡ nearer best (hit (signed_distance_convex c.now v) (profile.on k v)) }
{
    let new = CollisionHit {
        distance: signed_distance_convex(c, v),
        witness: on(k, v),
    };
    nearer_of(best, new)
}

// Vertex j of the section may be deeper in the convex body, with the edge that starts there. Outside it
// is not below 0, and needs no distance.
fn deeper_vertex(c: &[f64], s: &[f64], j: usize, best: CollisionHit) -> CollisionHit
    requires { j < count s.now }
    ensures { let v = vertex_at s.now j in
        result ≡ nearer best (hit (signed_distance_convex c.now v) (profile.on j v)) }
{
    let v = vertex_at(s, j);
    if best.distance <= 0.0 {
        if !point_in_convex(c, v) {
            return best;
        }
    }
    deeper_point(c, j, v, best)
}

fn convex_penetration(c: &[f64], s: &[f64], witness: Witness) -> CollisionHit
    requires { 3 ≤ count s.now }
    ensures { result ≡ convex_penetration c.now s.now witness }
{
    let m = s.len() / 2;
    let mut best = deepest_corner(c, s, witness);
    for j in 0..m {
        best = deeper_vertex(c, s, j, best);
    }
    best
}

// `across` is the product of the sides of the edge from a to b on which c and d lie.
pub fn proper_cross(a: Vertex, b: Vertex, c: Vertex, d: Vertex, across: f64) -> bool
    requires { across ≡ orient a b c ⊗ orient a b d }
    ensures { result ≡ proper_cross a b c d }
{
    across < 0.0 && orient(c, d, a) * orient(c, d, b) < 0.0
}

fn crosses_edge(s: &[f64], j: usize, a: Vertex, b: Vertex, across: f64) -> bool
    requires { (j < count s.now) × (across ≡ orient a b (vertex_at s.now j) ⊗ orient a b (end_at s.now j)) }
    ensures { result ≡ proper_cross a b (vertex_at s.now j) (end_at s.now j) }
{
    proper_cross(a, b, vertex_at(s, j), end_at(s, j), across)
}

// The search stops at the first proper crossing: two nested loops, left by a label, as 01 names it. Where an edge of
// the section ends the next one starts.
fn any_cross(c: &[f64], s: &[f64]) -> bool
    requires { 3 ≤ count s.now }
    ensures { result ≡ any_cross c.now s.now }
{
    let n = c.len() / 2;
    let m = s.len() / 2;
    let mut found = false;
    'search: for i in 0..n {
        let a = vertex_at(c, i);
        let b = end_at(c, i);
        let mut side = orient(a, b, vertex_at(s, 0));
        for j in 0..m {
            let next = orient(a, b, end_at(s, j));
            if crosses_edge(s, j, a, b, side * next) {
                found = true;
                break 'search;
            }
            side = next;
        }
    }
    found
}

// The search runs only where the penetration does not decide.
fn convex_overlaps(c: &[f64], s: &[f64], penetration: f64) -> bool
    requires { 3 ≤ count s.now }
    ensures { result ≡ (not (penetration ≺ neg e_9) && any_cross c.now s.now) }
{
    if penetration < -INTERIOR {
        return false;
    }
    any_cross(c, s)
}

pub fn convex_distance(c: &[f64], s: &[f64]) -> CollisionHit
    requires { (3 ≤ count c.now) × (3 ≤ count s.now) }
    ensures { result ≡ convex_distance c.now s.now }
{
    let gap = convex_gap(c, s);
    let gap_witness = gap.witness;
    let deep = convex_penetration(c, s, gap_witness);
    let witness = deep.witness;
    let overlaps = convex_overlaps(c, s, deep.distance);
    CollisionHit {
        distance: result_of(deep.distance, overlaps, gap.distance),
        witness: witness,
    }
}
