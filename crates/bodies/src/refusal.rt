// What is turned down of a body alone, whatever stands beside it: 4 and 5 of its numbers, then its own.
ghost use Rattle.std.specs.Prelude.{◌≡◌};
ghost use Rattle.section.specs.profile.Numbers.{refused_by};
ghost use Rattle.section.specs.profile.Refusals.{refusal};
ghost use Rattle.bodies.specs.Bodies.{alone_tests};
ghost use Rattle.bodies.specs.declared.shapes.Body.TheVariants as body_kinds;

use super::shapes::Body;
use section::{Aabb, Refusal, Sphere, alone_refusal, bounds_refusal, radius_refusal};
use walk::{Cylinder, axis_of, own_refusal};

fn sphere_alone(b: Sphere) -> Result<(), Refusal>
    ensures { refused_by result ≡ refusal (alone_tests (body_kinds.Sphere b)) }
{
    let c = b.center;
    let numbers = [c.x, c.y, c.z, b.radius];
    alone_refusal(&numbers[..], radius_refusal(b.radius))
}

fn box_alone(x: Aabb) -> Result<(), Refusal>
    ensures { refused_by result ≡ refusal (alone_tests (body_kinds.Box x)) }
{
    let numbers = [x.z0, x.z1, x.r0, x.r1];
    alone_refusal(&numbers[..], bounds_refusal(x))
}

fn cylinder_alone(c: Cylinder) -> Result<(), Refusal>
    ensures { refused_by result ≡ refusal (alone_tests (body_kinds.Cylinder c)) }
{
    let a = c.a;
    let b = c.b;
    let axis = axis_of(c);
    let numbers = [a.x, a.y, a.z, b.x, b.y, b.z, c.radius];
    alone_refusal(&numbers[..], own_refusal(c.radius, axis))
}

// The first of a body's own tests that is true.
pub fn body_alone(body: Body) -> Result<(), Refusal>
    ensures { refused_by result ≡ refusal (alone_tests body) }
{
    match body {
        Body::Sphere(b) => sphere_alone(b),
        Body::Box(x) => box_alone(x),
        Body::Cylinder(c) => cylinder_alone(c),
    }
}
