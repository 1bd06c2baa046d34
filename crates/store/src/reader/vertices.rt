// The section: its vertices, gathered from the chained records.
ghost use Rattle.std.specs.Prelude.{◌≡◌, [], ◌∷◌, ◌<◌, ◌^◌, length};
ghost use Rattle.store.specs.Store as store_specs;
ghost use Rattle.store.specs.Store.{vertex_numbers};
ghost use Rattle.store.specs.Steps.{SectionRoom, Adds, Gathers};

use crate::{Kind, is_kind, number_of};

// Puts record k, if it is a vertex, behind n others while there is room for it, and counts it.
fn add_vertex(store: &[u8], k: u32, space: &mut [f64], n: usize) -> usize
    requires { (length space.old ≡ 512) × (n < 2 ^ 32) }
    ensures { Adds (vertex_numbers store.now k) n space.old space.new result }
{
    if is_kind(store, k, Kind::Vertex) {
        if n < 256 {
            space[n * 2] = number_of(store, k, 0);
            space[n * 2 + 1] = number_of(store, k, 1);
            return n + 1;
        }
        return n + 1;
    }
    n
}

// How many vertices there are; 256 at most are put into the space.
pub fn gather(store: &[u8], order: &[u32], space: &mut [f64]) -> usize
    requires { SectionRoom order.now space.old }
    ensures { Gathers (store_specs.vertices store.now order.now) space.new result }
{
    let mut n = 0;
    for k in order {
        n = add_vertex(store, *k, space, n);
    }
    n
}
