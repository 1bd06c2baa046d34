// Where the computed points of all edges of a polygon lie along each axis.
ghost use Rattle.std.specs.Prelude.{◌≡◌, ◌<◌};
ghost use Rattle.section.specs.profile.Vertices.{count, vertex_at, end_at};
ghost use Rattle.section.specs.ranges.Hull.{wider, Hull, VertexHeld};

use super::range::{join, range_of};
use super::shapes::{Range, Sides};
use crate::profile::{Vertex, end_at, vertex_at};

// With the edge from a to b too.
fn wider(g: Sides, a: Vertex, b: Vertex) -> Sides
    ensures { (result ≡ wider g a b) × VertexHeld a }
{
    Sides {
        z: join(g.z, range_of(a.z, b.z)),
        r: join(g.r, range_of(a.r, b.r)),
    }
}

fn wider_at(c: &[f64], k: usize, g: Sides) -> Sides
    requires { k < count c.now }
    ensures { let v = vertex_at c.now k in (result ≡ wider g v (end_at c.now k)) × VertexHeld v }
{
    wider(g, vertex_at(c, k), end_at(c, k))
}

pub fn hull_of(c: &[f64]) -> Sides
    ensures { Hull c.now result }
{
    let n = c.len() / 2;
    let top = arith::infinity();
    let nothing = Range { lo: top, hi: -top };
    let mut hull = Sides {
        z: nothing,
        r: nothing,
    };
    for k in 0..n {
        hull = wider_at(c, k, hull);
    }
    hull
}
