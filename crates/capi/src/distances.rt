// The distances of a point, a sphere, a box and a convex polygon.
ghost use Rattle.arith.specs.Vector.{vec};
ghost use Rattle.section.specs.Answers.{point_answer, sphere_answer, box_answer, convex_answer};
ghost use Rattle.section.specs.Demand.{Bounded, BoundedOffAxis};
ghost use Rattle.section.specs.boxes.Boxes.{aabb};
ghost use Rattle.section.specs.profile.Vertices.{ball};
ghost use Rattle.capi.specs.handing.Interface.{Measures, places, hit_places};

use arith::Vec3;
use section::Sphere;

pub fn jorghipa_point(
    section: &[f64],
    x: f64,
    y: f64,
    z: f64,
    distance: &mut f64,
    witness_z: &mut f64,
    witness_radius: &mut f64,
    edge: &mut u32,
) -> u32
    ensures { let s = section.now in Measures (BoundedOffAxis s) hit_places (point_answer s (vec x y z)) result
        (places distance.old witness_z.old witness_radius.old edge.old)
        (places distance.new witness_z.new witness_radius.new edge.new) }
{
    let answer = section::signed_distance(section, Vec3 { x, y, z });
    crate::handing::give(answer, distance, witness_z, witness_radius, edge)
}

pub fn jorghipa_sphere(
    section: &[f64],
    x: f64,
    y: f64,
    z: f64,
    radius: f64,
    distance: &mut f64,
    witness_z: &mut f64,
    witness_radius: &mut f64,
    edge: &mut u32,
) -> u32
    ensures { let s = section.now in
        Measures (BoundedOffAxis s) hit_places (sphere_answer s (ball (vec x y z) radius)) result
        (places distance.old witness_z.old witness_radius.old edge.old)
        (places distance.new witness_z.new witness_radius.new edge.new) }
{
    let center = Vec3 { x, y, z };
    let answer = section::query_sphere(section, Sphere { center, radius });
    crate::handing::give(answer, distance, witness_z, witness_radius, edge)
}

pub fn jorghipa_box(
    section: &[f64],
    z0: f64,
    z1: f64,
    r0: f64,
    r1: f64,
    distance: &mut f64,
    witness_z: &mut f64,
    witness_radius: &mut f64,
    edge: &mut u32,
) -> u32
    ensures { let s = section.now in Measures (Bounded s) hit_places (box_answer s (aabb z0 z1 r0 r1)) result
        (places distance.old witness_z.old witness_radius.old edge.old)
        (places distance.new witness_z.new witness_radius.new edge.new) }
{
    let answer = section::aabb_polygon_distance(z0, z1, r0, r1, section);
    crate::handing::give(answer, distance, witness_z, witness_radius, edge)
}

pub fn jorghipa_convex(
    convex: &[f64],
    section: &[f64],
    distance: &mut f64,
    witness_z: &mut f64,
    witness_radius: &mut f64,
    edge: &mut u32,
) -> u32
    ensures { let s = section.now in Measures (Bounded s) hit_places (convex_answer convex.now s) result
        (places distance.old witness_z.old witness_radius.old edge.old)
        (places distance.new witness_z.new witness_radius.new edge.new) }
{
    let answer = section::convex_polygon_distance(convex, section);
    crate::handing::give(answer, distance, witness_z, witness_radius, edge)
}
