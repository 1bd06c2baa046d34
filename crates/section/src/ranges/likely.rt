// Which edge is likely the nearest to a box, or to a point: no answer depends on it.
ghost use Rattle.std.specs.Prelude.{◌<◌, ◌≤◌};
ghost use Rattle.section.specs.profile.Vertices.{count};

use crate::profile::{Aabb, Vertex, vertex_at};

// The edge that ends at the vertex that is the least far, or edge 0: the next, which is often as near, comes after it.
fn edge_to_nearest<F: Fn(Vertex) -> f64>(s: &[f64], far: F) -> usize
    requires { (3 ≤ count s.now) × F.IsAlwaysCallable far }
    ensures { result < count s.now }
{
    let n = s.len() / 2;
    let mut least = arith::infinity();
    let mut near: usize = 0;
    for k in 0..n {
        let d = far(vertex_at(s, k));
        if d < least {
            least = d;
            near = k;
        }
    }
    near.saturating_sub(1)
}

// How far a vertex lies from the box, squared and roughly.
fn rough_gap(a: Vertex, x: Aabb) -> f64 {
    let dz = a.z - arith::clamp(a.z, x.z0, x.z1);
    let dr = a.r - arith::clamp(a.r, x.r0, x.r1);
    dz * dz + dr * dr
}

// The edge that ends at the vertex nearest to the box.
pub fn likely_edge(s: &[f64], x: Aabb) -> usize
    requires { 3 ≤ count s.now }
    ensures { result < count s.now }
{
    edge_to_nearest(s, |v| rough_gap(v, x))
}

// The hint, if it is an edge.
pub fn likely_edge_or(s: &[f64], x: Aabb, hint: Option<usize>) -> usize
    requires { 3 ≤ count s.now }
    ensures { result < count s.now }
{
    if let Some(k) = hint {
        if k < s.len() / 2 {
            return k;
        }
    }
    likely_edge(s, x)
}

// How far a vertex lies from the point, squared and roughly.
fn rough_apart(a: Vertex, p: Vertex) -> f64 {
    let dz = a.z - p.z;
    let dr = a.r - p.r;
    dz * dz + dr * dr
}

// The edge that ends at the vertex nearest to the point.
pub fn likely_edge_at(s: &[f64], p: Vertex) -> usize
    requires { 3 ≤ count s.now }
    ensures { result < count s.now }
{
    edge_to_nearest(s, |v| rough_apart(v, p))
}
