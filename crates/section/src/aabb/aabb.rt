// Box distance: the gap, the depth at five probes of the box, and what lies well inside it.
ghost use Rattle.std.specs.Prelude.{◌≡◌, cond, ◌<◌, ◌≤◌};
ghost use Rattle.section.specs.profile.Vertices as profile;
ghost use Rattle.section.specs.profile.Vertices.{count, vertex_at, end_at, any};
ghost use Rattle.section.specs.boxes.Boxes.{strictly_inside_aabb, middle, segment_through_interior};
ghost use Rattle.section.specs.boxes.Boxes.{box_gap, box_penetration, box_witness, box_distance};
ghost use Rattle.section.specs.boxes.Steps.{any_through, box_apart};

use crate::boxes::box_gap;
use crate::probes::{Probes, deeper_probe, none_inside, odd_probes};
use crate::profile::{Aabb, CollisionHit, Vertex, Witness, any_edge, nearer_of, on, vertex_at};
use crate::segments::{INTERIOR, clip_segment, lerp};
use crate::signed::result_of;

#[tactic(auto, unfolding(crate::specs::boxes::Boxes::strictly_inside_aabb))]
pub fn strictly_inside_aabb(v: Vertex, x: Aabb) -> bool
    ensures { result ≡ strictly_inside_aabb x v }
{
    v.z > x.z0 + INTERIOR && v.z < x.z1 - INTERIOR && v.r > x.r0 + INTERIOR && v.r < x.r1 - INTERIOR
}

fn middle_of(a: Vertex, b: Vertex) -> Vertex
    ensures { result ≡ middle a b }
{
    Vertex {
        z: (a.z + b.z) * 0.5,
        r: (a.r + b.r) * 0.5,
    }
}

#[tactic(auto, unfolding(crate::specs::boxes::Boxes::segment_through_interior))]
pub fn segment_through_interior(a: Vertex, b: Vertex, x: Aabb) -> bool
    ensures { result ≡ segment_through_interior x a b }
{
    if let Some(c) = clip_segment(a, b, x) {
        return strictly_inside_aabb(middle_of(lerp(a, b, c.t0), lerp(a, b, c.t1)), x);
    }
    false
}

fn box_penetration(s: &[f64], x: Aabb, witness: Witness) -> CollisionHit
    requires { 3 ≤ count s.now }
    ensures { result ≡ box_penetration s.now x witness }
{
    let c00 = Vertex { z: x.z0, r: x.r0 };
    let c10 = Vertex { z: x.z1, r: x.r0 };
    let c11 = Vertex { z: x.z1, r: x.r1 };
    let c01 = Vertex { z: x.z0, r: x.r1 };
    let centre = middle_of(c00, c11);
    let at = Probes {
        centre,
        c00,
        c10,
        c11,
        c01,
    };
    let odd = odd_probes(s, at);
    let none = CollisionHit {
        distance: 0.0,
        witness: witness,
    };
    if none_inside(at, odd) {
        return none;
    }
    let start = deeper_probe(s, centre, odd.centre, none);
    let first = deeper_probe(s, c00, odd.c00, start);
    let second = deeper_probe(s, c10, odd.c10, first);
    let third = deeper_probe(s, c11, odd.c11, second);
    deeper_probe(s, c01, odd.c01, third)
}

// Vertex k, if it lies well inside, takes over the witness, with the edge that starts there.
fn witness_at(s: &[f64], x: Aabb, k: usize, at: Witness) -> Witness
    requires { k < count s.now }
    ensures { let v = vertex_at s.now k in result ≡ cond (strictly_inside_aabb x v) (profile.on k v) at }
{
    let v = vertex_at(s, k);
    if strictly_inside_aabb(v, x) {
        on(k, v)
    } else {
        at
    }
}

fn box_witness(s: &[f64], x: Aabb, witness: Witness) -> Witness
    ensures { result ≡ box_witness s.now x witness }
{
    let n = s.len() / 2;
    let mut at = witness;
    for k in 0..n {
        at = witness_at(s, x, k, at);
    }
    at
}

fn any_vertex_inside(s: &[f64], x: Aabb) -> bool
    ensures { result ≡ any (λ k. strictly_inside_aabb x (vertex_at s.now k)) (count s.now) }
{
    any_edge(s, |a, _| strictly_inside_aabb(a, x))
}

fn any_edge_through(s: &[f64], x: Aabb) -> bool
    ensures { result ≡ any_through s.now x }
{
    any_edge(s, |a, b| segment_through_interior(a, b, x))
}

// Where the gap is above 0 no edge is clipped.
fn runs_through(s: &[f64], x: Aabb, gap: f64) -> bool
    requires { gap ≡ (box_gap s.now x).distance }
    ensures { result ≡ any_through s.now x }
{
    if gap > 0.0 {
        return false;
    }
    any_edge_through(s, x)
}

// No vertex lies well inside, and no probe is deep: the gap tells, or an edge that runs through.
fn box_apart(s: &[f64], x: Aabb, hint: Option<usize>, deep: CollisionHit) -> CollisionHit
    requires { 3 ≤ count s.now }
    ensures { result ≡ box_apart s.now x deep }
{
    let gap = box_gap(s, x, hint);
    let gap_witness = gap.witness;
    let beside = CollisionHit {
        distance: 0.0,
        witness: gap_witness,
    };
    let found = nearer_of(beside, deep);
    let found_witness = found.witness;
    let through = runs_through(s, x, gap.distance);
    CollisionHit {
        distance: result_of(found.distance, through, gap.distance),
        witness: found_witness,
    }
}

// With a vertex well inside, or a probe deeper than 1e-9, the gap is not read. The hint, an edge that is likely
// the nearest, appears in no answer.
pub fn box_distance_near(s: &[f64], x: Aabb, hint: Option<usize>) -> CollisionHit
    requires { 3 ≤ count s.now }
    ensures { result ≡ box_distance s.now x }
{
    let start = on(0, vertex_at(s, 0));
    let deep = box_penetration(s, x, start);
    if any_vertex_inside(s, x) {
        return CollisionHit {
            distance: result_of(deep.distance, true, 0.0),
            witness: box_witness(s, x, start),
        };
    }
    if deep.distance < -INTERIOR {
        return deep;
    }
    box_apart(s, x, hint, deep)
}

pub fn box_distance(s: &[f64], x: Aabb) -> CollisionHit
    requires { 3 ≤ count s.now }
    ensures { result ≡ box_distance s.now x }
{
    box_distance_near(s, x, None)
}
