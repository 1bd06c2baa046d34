// The vertices and the spheres, record behind record. Each function hands back the state that it
// ends with.
ghost use Rattle.std.specs.Prelude.{◌≡◌, ◌+◌, ◌*◌, ◌≤◌, ◌<◌};
ghost use Rattle.loads.specs.Load.{vertex_record, sphere_record, sphere_next, load_vertices, load_spheres};
ghost use Rattle.loads.specs.Xorshift.{state_after};
ghost use Rattle.loads.specs.Steps.{Drawn};

use super::draws::{coordinate_bits, radius_bits, xorshift};
use super::fields::put_record;
use store::Kind;

fn put_vertex(space: &mut [u8; 20480], i: usize, state: u64) -> u64
    requires { i < 256 }
    ensures { let at = 40 + i * 40 in
        Drawn space.old at (vertex_record i state) space.new (state_after state 2) result }
{
    let s = xorshift(state);
    let t = xorshift(s);
    put_record(
        space,
        40 + i * 40,
        i as u32 + 2,
        Kind::Vertex,
        coordinate_bits(s),
        radius_bits(t),
        0,
        0,
    );
    t
}

// The first n of them from the seed on.
pub fn put_vertices(space: &mut [u8; 20480], seed: u64, n: usize) -> u64
    requires { n ≤ 256 }
    ensures { Drawn space.old 40 (load_vertices seed n) space.new (state_after seed (n * 2)) result }
{
    let mut state = seed;
    for i in 0..n {
        state = put_vertex(space, i, state);
    }
    state
}

// The last leads to 0.
fn sphere_next(n: usize, j: usize) -> u32
    requires { (n ≤ 256) × (j < 32) }
    ensures { result ≡ sphere_next n j }
{
    let own = (n + j + 1) as u32;
    if j == 31 {
        return 0;
    }
    own + 1
}

// Sphere j behind n vertices.
fn put_sphere(space: &mut [u8; 20480], n: usize, j: usize, state: u64) -> u64
    requires { (n ≤ 256) × (j < 32) }
    ensures { let at = n * 40 + 40 + j * 40 in
        Drawn space.old at (sphere_record n j state) space.new (state_after state 4) result }
{
    let s = xorshift(state);
    let t = xorshift(s);
    let u = xorshift(t);
    let v = xorshift(u);
    let at = n * 40 + 40 + j * 40;
    put_record(
        space,
        at,
        sphere_next(n, j),
        Kind::Sphere,
        coordinate_bits(s),
        coordinate_bits(t),
        coordinate_bits(u),
        radius_bits(v),
    );
    v
}

// All 32, from the state behind the vertices on.
pub fn put_spheres(space: &mut [u8; 20480], state0: u64, n: usize) -> u64
    requires { n ≤ 256 }
    ensures { let at = n * 40 + 40 in
        Drawn space.old at (load_spheres state0 n 32) space.new (state_after state0 128) result }
{
    let mut state = state0;
    for j in 0..32 {
        state = put_sphere(space, n, j, state);
    }
    state
}
