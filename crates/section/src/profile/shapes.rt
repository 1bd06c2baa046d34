// The records of a profile and of what stands beside it: vertices, edges, boxes, spheres, hits.
use arith::Vec3;

// As C lays it out: a slice of vertices can be lent from there.
#[repr(C)]
#[derive(Clone, Copy)]
pub struct Vertex {
    pub z: f64,
    pub r: f64,
}

// z from z0 to z1, radius from r0 to r1
#[derive(Clone, Copy)]
pub struct Aabb {
    pub z0: f64,
    pub z1: f64,
    pub r0: f64,
    pub r1: f64,
}

#[derive(Clone, Copy)]
pub struct Sphere {
    pub center: Vec3,
    pub radius: f64,
}

// An edge of a profile: where it starts, where it ends, and its number, that of the vertex at its start.
#[derive(Clone, Copy)]
pub struct Edge {
    pub a: Vertex,
    pub b: Vertex,
    pub number: usize,
}

// A point of the section, and the number of the edge that supplied it.
#[derive(Clone, Copy)]
pub struct Witness {
    pub z: f64,
    pub r: f64,
    pub edge: usize,
}

// A signed distance and its witness.
#[derive(Clone, Copy)]
pub struct CollisionHit {
    pub distance: f64,
    pub witness: Witness,
}
