// Vertices and edges of a lent list of numbers, z and radius in turn.
ghost use Rattle.std.specs.Prelude.{◌≡◌, ◌<◌, Bool};
ghost use Rattle.section.specs.profile.Vertices as profile;
ghost use Rattle.section.specs.profile.Vertices.{any, count, vertex_at, end_at, edge_at, next, nearer};

use super::shapes::{CollisionHit, Edge, Vertex, Witness};

// The number after k, the last followed by the first.
fn next_of(n: usize, k: usize) -> usize
    requires { k < n }
    ensures { (result ≡ next n k) × (result < n) }
{
    if k + 1 == n { 0 } else { k + 1 }
}

pub fn vertex_at(s: &[f64], k: usize) -> Vertex
    requires { k < count s.now }
    ensures { result ≡ vertex_at s.now k }
{
    Vertex {
        z: s[k * 2],
        r: s[k * 2 + 1],
    }
}

// Where edge k ends.
pub fn end_at(s: &[f64], k: usize) -> Vertex
    requires { k < count s.now }
    ensures { result ≡ end_at s.now k }
{
    let n = s.len() / 2;
    let j = next_of(n, k);
    vertex_at(s, j)
}

pub fn edge_at(s: &[f64], k: usize) -> Edge
    requires { k < count s.now }
    ensures { result ≡ edge_at s.now k }
{
    Edge {
        a: vertex_at(s, k),
        b: end_at(s, k),
        number: k,
    }
}

// Some edge passes the test of where it starts and where it ends.
pub fn any_edge<F: Fn(Vertex, Vertex) -> bool>(s: &[f64], test: F) -> bool
    requires { F.IsAlwaysCallable test }
    ensures { (t : _ → _ → Bool) → ((a b r : _) → F.post test a b r → r ≡ t a b)
        → result ≡ any (λ k. t (vertex_at s.now k) (end_at s.now k)) (count s.now) }
{
    let n = s.len() / 2;
    for k in 0..n {
        if test(vertex_at(s, k), end_at(s, k)) {
            return true;
        }
    }
    false
}

// The point v as witness of edge k.
pub fn on(k: usize, v: Vertex) -> Witness
    ensures { result ≡ profile.on k v }
{
    Witness {
        z: v.z,
        r: v.r,
        edge: k,
    }
}

pub fn nearer_of(best: CollisionHit, new: CollisionHit) -> CollisionHit
    ensures { result ≡ nearer best new }
{
    if new.distance < best.distance {
        new
    } else {
        best
    }
}
