// The gap between a section and a box. An edge that is not clipped and whose range lies as far from the box's as
// the best is passed over, and so is a side; the edge that is likely the nearest is tried first.
ghost use Rattle.std.specs.Prelude.{◌≡◌, true, false, ◌<◌, ◌≤◌};
ghost use Rattle.arith.specs.F64.{◌≺◌, 𝟘};
ghost use Rattle.section.specs.profile.Vertices as profile;
ghost use Rattle.section.specs.profile.Vertices.{count, vertex_at, end_at, edge_at, nearer, nearest_of};
ghost use Rattle.section.specs.segments.Legs.{Nearest};
ghost use Rattle.section.specs.segments.Segments.{along, segments};
ghost use Rattle.section.specs.ranges.Ranges.{gap_between, range_of, ranges_of, sides_of};
ghost use Rattle.section.specs.boxes.Boxes.{corners, edge_box, box_gap};
ghost use Rattle.section.specs.boxes.Steps.{GapFrom, HeldBeside, Ranged};

use super::shapes::SidedBox;
use crate::profile::{Aabb, CollisionHit, Edge, Vertex, edge_at, on, vertex_at};
use crate::ranges::{
    Range, Sides, gap_between, likely_edge_or, misses_along, misses_box, range_of, ranges_of,
    sides_of, start_over,
};
use crate::segments::{
    Near, clip_segment, hopeless, legless, lerp, nearer_near, seg_seg_point_on_first,
};

// The box's side from c to d may be nearer to the edge. The edge lies in g, the side in hz and hr.
fn nearer_side(edge: Edge, g: Sides, c: Vertex, d: Vertex, hz: Range, hr: Range, best: Near) -> Near
    requires { Ranged edge g c d hz hr }
    ensures { Nearest best (segments edge c d) result }
{
    let z = gap_between(g.z, hz);
    let r = gap_between(g.r, hr);
    if hopeless(z, r, best) {
        return best;
    }
    seg_seg_point_on_first(edge, c, d, best)
}

// A side of the box may be nearer to the edge.
fn nearest_side(edge: Edge, sided: SidedBox, g: Sides, best: Near) -> Near
    requires { (g ≡ ranges_of edge.a edge.b) × HeldBeside sided.aabb edge }
    ensures { result.hit ≡ nearest_of (λ k. segments edge (vertex_at (corners sided.aabb) k) (end_at (corners sided.aabb) k)) best.hit 4 }
{
    let x = sided.aabb;
    let c00 = Vertex { z: x.z0, r: x.r0 };
    let c10 = Vertex { z: x.z1, r: x.r0 };
    let c11 = Vertex { z: x.z1, r: x.r1 };
    let c01 = Vertex { z: x.z0, r: x.r1 };
    let low = Range { lo: x.r0, hi: x.r0 };
    let last = Range { lo: x.z1, hi: x.z1 };
    let high = Range { lo: x.r1, hi: x.r1 };
    let start = Range { lo: x.z0, hi: x.z0 };
    let along_z = sided.sides.z;
    let along_r = sided.sides.r;
    let first = nearer_side(edge, g, c00, c10, along_z, low, best);
    let second = nearer_side(edge, g, c10, c11, last, along_r, first);
    let third = nearer_side(edge, g, c11, c01, along_z, high, second);
    nearer_side(edge, g, c01, c00, start, along_r, third)
}

// The box holds the edge from t on.
fn entered(edge: Edge, t: f64) -> Near
    ensures { result.hit ≡ profile.hit 𝟘 (profile.on edge.number (along edge.a edge.b t)) }
{
    legless(CollisionHit {
        distance: 0.0,
        witness: on(edge.number, lerp(edge.a, edge.b, t)),
    })
}

// The edge may be nearer to the box.
fn segment_aabb_distance(edge: Edge, x: SidedBox, g: Sides, best: Near) -> Near
    requires { g ≡ ranges_of edge.a edge.b }
    ensures { Nearest best (edge_box x.aabb edge) result }
{
    if let Some(c) = clip_segment(edge.a, edge.b, x.aabb) {
        return nearer_near(best, entered(edge, c.t0));
    }
    nearest_side(edge, x, g, best)
}

// The edge is not nearer than the best, as z alone tells of most edges: it lies this far from the box along z, and one of
// the two sides across leaves nothing of it.
fn passed_along_z(edge: Edge, x: Aabb, z: f64, best: Near) -> bool
    requires { z ≡ gap_between (range_of edge.a.z edge.b.z) (sides_of x).z }
    ensures { result ≡ true → ((edge_box x edge).distance ≺ best.hit.distance) ≡ false }
{
    let a = edge.a;
    let b = edge.b;
    if z >= best.hit.distance {
        return misses_along(a.z, b.z, x.z0, x.z1);
    }
    false
}

// The same, as both axes tell.
fn passed_over(edge: Edge, x: SidedBox, best: Near) -> bool
    ensures { result ≡ true → ((edge_box x.aabb edge).distance ≺ best.hit.distance) ≡ false }
{
    let a = edge.a;
    let b = edge.b;
    let z = gap_between(range_of(a.z, b.z), x.sides.z);
    if passed_along_z(edge, x.aabb, z, best) {
        return true;
    }
    let r = gap_between(range_of(a.r, b.r), x.sides.r);
    if hopeless(z, r, best) {
        return misses_box(a, b, x.aabb);
    }
    false
}

// Edge k may be nearer to the box.
fn gap_at(s: &[f64], x: SidedBox, k: usize, best: Near) -> Near
    requires { k < count s.now }
    ensures { Nearest best (edge_box x.aabb (edge_at s.now k)) result }
{
    let edge = edge_at(s, k);
    let g = ranges_of(edge.a, edge.b);
    segment_aabb_distance(edge, x, g, best)
}

// Edges from this one up to that one may be nearer to the box. The best stays where it is while edges are passed over.
fn gap_from(s: &[f64], x: SidedBox, from: usize, to: usize, start: Near) -> Near
    requires { (from ≤ to) × (to ≤ count s.now) }
    ensures { GapFrom s.now x.aabb from to start.hit result.hit }
{
    let mut best = start;
    for k in from..to {
        if passed_over(edge_at(s, k), x, best) {
            continue;
        }
        best = gap_at(s, x, k, best);
    }
    best
}

// Edges up to this one may be nearer to the box. Edge 0 is often tried first, and has none before it.
fn gap_before(s: &[f64], x: SidedBox, k: usize, start: Near) -> Near
    requires { k ≤ count s.now }
    ensures { GapFrom s.now x.aabb 0 k start.hit result.hit }
{
    if k > 0 {
        return gap_from(s, x, 0, k, start);
    }
    start
}

// The edge that is tried first: nothing is known yet, so that it is not asked whether it may be passed over. Measured here
// and not by a call, which would be 4 % of a box beside 4 vertices.
fn first_gap(edge: Edge, x: SidedBox, none: CollisionHit) -> Near
    ensures { result.hit ≡ nearer none (edge_box x.aabb edge) }
{
    let g = ranges_of(edge.a, edge.b);
    let best = legless(none);
    if let Some(c) = clip_segment(edge.a, edge.b, x.aabb) {
        return nearer_near(best, entered(edge, c.t0));
    }
    nearest_side(edge, x, g, best)
}

pub fn box_gap(s: &[f64], x: Aabb, hint: Option<usize>) -> CollisionHit
    requires { 3 ≤ count s.now }
    ensures { result ≡ box_gap s.now x }
{
    let n = s.len() / 2;
    let sided = SidedBox {
        aabb: x,
        sides: sides_of(x),
    };
    let none = CollisionHit {
        distance: arith::infinity(),
        witness: on(0, vertex_at(s, 0)),
    };
    let k = likely_edge_or(s, x, hint);
    let after = k + 1;
    let first = first_gap(edge_at(s, k), sided, none);
    let start = start_over(first.hit, none);
    let before = gap_before(s, sided, k, legless(start));
    let best = nearer_near(before, first);
    let last = gap_from(s, sided, after, n, best);
    last.hit
}
