// Where a body stands at each step of a move.
ghost use Rattle.std.specs.Prelude.{◌≡◌};
ghost use Rattle.bodies.specs.moves.Placement as placement;
ghost use Rattle.bodies.specs.declared.shapes.Body.TheVariants as body_kinds;

use super::shapes::Travel;
use crate::Body;
use arith::Vec3;
use section::{Aabb, Sphere};
use walk::Cylinder;

// Of step i of n, along one axis: start + (end - start)·i/n, multiplied first.
fn offset(start: f64, end: f64, n: u32, i: u32) -> f64
    ensures { result ≡ placement.offset start end n i }
{
    start + (end - start) * i as f64 / n as f64
}

fn offset_at(travel: Travel, i: u32) -> Vec3
    ensures { result ≡ placement.offset_at travel i }
{
    let start = travel.start;
    let end = travel.end;
    let n = travel.steps;
    Vec3 {
        x: offset(start.x, end.x, n, i),
        y: offset(start.y, end.y, n, i),
        z: offset(start.z, end.z, n, i),
    }
}

fn shifted(p: Vec3, offset: Vec3) -> Vec3
    ensures { result ≡ placement.shifted p offset }
{
    Vec3 {
        x: p.x + offset.x,
        y: p.y + offset.y,
        z: p.z + offset.z,
    }
}

fn placed_sphere(b: Sphere, offset: Vec3) -> Body
    ensures { result ≡ placement.placed (body_kinds.Sphere b) offset }
{
    let center = shifted(b.center, offset);
    Body::Sphere(Sphere {
        center,
        radius: b.radius,
    })
}

// Its z bounds take z, its r bounds take x.
fn placed_box(b: Aabb, offset: Vec3) -> Body
    ensures { result ≡ placement.placed (body_kinds.Box b) offset }
{
    let x = offset.x;
    let z = offset.z;
    Body::Box(Aabb {
        z0: b.z0 + z,
        z1: b.z1 + z,
        r0: b.r0 + x,
        r1: b.r1 + x,
    })
}

fn placed_cylinder(c: Cylinder, offset: Vec3) -> Body
    ensures { result ≡ placement.placed (body_kinds.Cylinder c) offset }
{
    let a = shifted(c.a, offset);
    let b = shifted(c.b, offset);
    Body::Cylinder(Cylinder {
        a,
        b,
        radius: c.radius,
    })
}

fn placed(body: Body, offset: Vec3) -> Body
    ensures { result ≡ placement.placed body offset }
{
    match body {
        Body::Sphere(b) => placed_sphere(b, offset),
        Body::Box(b) => placed_box(b, offset),
        Body::Cylinder(c) => placed_cylinder(c, offset),
    }
}

// The body at step i.
pub fn placed_at(body: Body, travel: Travel, i: u32) -> Body
    ensures { result ≡ placement.placed_at body travel i }
{
    placed(body, offset_at(travel, i))
}
