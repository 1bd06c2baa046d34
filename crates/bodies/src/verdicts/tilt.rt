// The distance that a verdict judges: a cylinder's less half of how far its axis leans, any other body's as it is.
ghost use Rattle.std.specs.Prelude.{◌≡◌};
ghost use Rattle.bodies.specs.verdicts.Tilt.{tilt_length, less_tilt, judged_distance};

use crate::Body;
use arith::Vec3;
use walk::{Axis, Cylinder, axis_of};

// How far one end stands from the other, seen along the axis.
fn tilt_length(axis: Axis, c: Cylinder) -> f64
    ensures { result ≡ tilt_length axis c }
{
    let Vec3 { x, y, z } = c.a.sub(c.b);
    match axis {
        Axis::Axial | Axis::Neither => arith::hypot(x, y),
        Axis::AlongX => arith::hypot(y, z),
        Axis::AlongY => arith::hypot(x, z),
    }
}

pub fn less_tilt(axis: Axis, c: Cylinder, distance: f64) -> f64
    ensures { result ≡ less_tilt axis c distance }
{
    distance - tilt_length(axis, c) * 0.5
}

// Of a body whose distance this is.
pub fn judged_distance(body: Body, distance: f64) -> f64
    ensures { result ≡ judged_distance body distance }
{
    match body {
        Body::Sphere(_) | Body::Box(_) => distance,
        Body::Cylinder(c) => less_tilt(axis_of(c), c, distance),
    }
}
