// The even-odd rule at five probes at once, and the depth at one of them.
ghost use Rattle.std.specs.Prelude.{◌≡◌, true, ◌<◌, ◌≤◌};
ghost use Rattle.std.specs.Float.Ieee.{unlike};
ghost use Rattle.section.specs.profile.Vertices.{count, vertex_at, end_at, edge_at, nearer};
ghost use Rattle.section.specs.points.Points.{crosses, point_inside, point_distance};
ghost use Rattle.section.specs.probes.Probes.{AllOutside, OddNext, OddProbes, OffAxis};
ghost use Rattle.section.specs.probes.Radii.{Reaches};

use super::reach::{reach_of, unparted};
use super::shapes::Probes;
use crate::profile::{CollisionHit, Edge, Vertex, edge_at, end_at, vertex_at};
use crate::ranges::Range;
use crate::signed::{crosses, deeper_at, deeper_inside};

fn odd_after(p: Vertex, edge: Edge, odd: bool) -> bool
    ensures { result ≡ unlike odd (crosses p edge.a edge.b) }
{
    odd != crosses(p, edge.a, edge.b)
}

// No probe is as near to the axis as an axis edge counts.
fn off_axis(at: Probes<Vertex>) -> bool
    ensures { result ≡ true → OffAxis at }
{
    !(at.centre.r <= 1e-8)
        && !(at.c00.r <= 1e-8)
        && !(at.c10.r <= 1e-8)
        && !(at.c11.r <= 1e-8)
        && !(at.c01.r <= 1e-8)
}

// One edge more.
fn odd_next(edge: Edge, at: Probes<Vertex>, odd: Probes<bool>) -> Probes<bool>
    ensures { OddNext at edge odd result }
{
    Probes {
        centre: odd_after(at.centre, edge, odd.centre),
        c00: odd_after(at.c00, edge, odd.c00),
        c10: odd_after(at.c10, edge, odd.c10),
        c11: odd_after(at.c11, edge, odd.c11),
        c01: odd_after(at.c01, edge, odd.c01),
    }
}

// Edge k more. One that no probe's radius parts is passed over.
fn odd_at(s: &[f64], at: Probes<Vertex>, reach: Range, k: usize, odd: Probes<bool>) -> Probes<bool>
    requires { (k < count s.now) × Reaches at reach }
    ensures { OddNext at (edge_at s.now k) odd result }
{
    let a = vertex_at(s, k);
    let b = end_at(s, k);
    if unparted(reach, a.r, b.r) {
        return odd;
    }
    odd_next(edge_at(s, k), at, odd)
}

pub fn odd_probes(s: &[f64], at: Probes<Vertex>) -> Probes<bool>
    ensures { OddProbes s.now at (count s.now) result }
{
    let n = s.len() / 2;
    let reach = reach_of(at);
    let mut odd = Probes {
        centre: false,
        c00: false,
        c10: false,
        c11: false,
        c01: false,
    };
    for k in 0..n {
        odd = odd_at(s, at, reach, k, odd);
    }
    odd
}

// No probe lies inside: none is odd, and none as near to the axis as an axis edge counts.
pub fn none_inside(at: Probes<Vertex>, odd: Probes<bool>) -> bool
    ensures { result ≡ true → AllOutside at odd }
{
    !odd.centre && !odd.c00 && !odd.c10 && !odd.c11 && !odd.c01 && off_axis(at)
}

// The section may be deeper at p, of which the even-odd rule is known. Outside it is not below 0, and needs
// no distance.
pub fn deeper_probe(s: &[f64], p: Vertex, odd: bool, best: CollisionHit) -> CollisionHit
    requires { (3 ≤ count s.now) × (odd ≡ point_inside s.now p) }
    ensures { result ≡ nearer best (point_distance s.now p) }
{
    if best.distance <= 0.0 {
        if odd {
            return deeper_inside(s, p, best);
        }
        if !(p.r <= 1e-8) {
            return best;
        }
    }
    deeper_at(s, p, best)
}
