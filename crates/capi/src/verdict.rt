// The verdicts: 1 collision, 0 clear.
ghost use Rattle.arith.specs.Vector.{vec};
ghost use Rattle.section.specs.boxes.Boxes.{aabb};
ghost use Rattle.bodies.specs.declared.shapes.Body.TheVariants as body_kinds;
ghost use Rattle.bodies.specs.verdicts.Verdicts.{body_verdict, convex_verdict};
ghost use Rattle.section.specs.profile.Vertices.{ball};
ghost use Rattle.walk.specs.bands.Band.{bar};
ghost use Rattle.capi.specs.handing.Interface.{Gives, Measures, counts, mark};
ghost use Rattle.capi.specs.handing.Walks.{judged_places, walk_places};
ghost use Rattle.bodies.specs.walk_verdicts.WalkVerdicts.{walk_verdict, FewCounted};

use crate::cylinder::bar;
use arith::Vec3;
use section::{Aabb, Sphere};

pub fn jorghipa_verdict_sphere(
    section: &[f64],
    x: f64,
    y: f64,
    z: f64,
    radius: f64,
    clearance: f64,
    collision: &mut u32,
) -> u32
    ensures { Gives mark (body_verdict section.now (body_kinds.Sphere (ball (vec x y z) radius)) clearance)
        result collision.old collision.new }
{
    let center = Vec3 { x, y, z };
    let verdict = bodies::verdict_sphere(section, Sphere { center, radius }, clearance);
    crate::handing::judge(verdict, collision)
}

pub fn jorghipa_verdict_box(
    section: &[f64],
    z0: f64,
    z1: f64,
    r0: f64,
    r1: f64,
    clearance: f64,
    collision: &mut u32,
) -> u32
    ensures { Gives mark (body_verdict section.now (body_kinds.Box (aabb z0 z1 r0 r1)) clearance)
        result collision.old collision.new }
{
    let verdict = bodies::verdict_box(section, Aabb { z0, z1, r0, r1 }, clearance);
    crate::handing::judge(verdict, collision)
}

pub fn jorghipa_verdict_cylinder(
    section: &[f64],
    ax: f64,
    ay: f64,
    az: f64,
    bx: f64,
    by: f64,
    bz: f64,
    radius: f64,
    clearance: f64,
    collision: &mut u32,
) -> u32
    ensures { Gives mark
        (body_verdict section.now (body_kinds.Cylinder (bar (vec ax ay az) (vec bx by bz) radius)) clearance)
        result collision.old collision.new }
{
    let verdict = bodies::verdict_cylinder(section, bar(ax, ay, az, bx, by, bz, radius), clearance);
    crate::handing::judge(verdict, collision)
}

pub fn jorghipa_verdict_walk(
    section: &[f64],
    ax: f64,
    ay: f64,
    az: f64,
    bx: f64,
    by: f64,
    bz: f64,
    radius: f64,
    clearance: f64,
    collision: &mut u32,
    boxes: &mut u32,
    waiting: &mut u32,
    cut: &mut u32,
) -> u32
    ensures { Measures FewCounted walk_places
        (walk_verdict section.now (bar (vec ax ay az) (vec bx by bz) radius) clearance) result
        (judged_places collision.old (counts boxes.old waiting.old cut.old))
        (judged_places collision.new (counts boxes.new waiting.new cut.new)) }
{
    let verdict = bodies::verdict_walk(section, bar(ax, ay, az, bx, by, bz, radius), clearance);
    crate::handing::give_walk(verdict, collision, boxes, waiting, cut)
}

pub fn jorghipa_verdict_convex(
    convex: &[f64],
    section: &[f64],
    clearance: f64,
    collision: &mut u32,
) -> u32
    ensures { Gives mark (convex_verdict convex.now section.now clearance)
        result collision.old collision.new }
{
    let verdict = bodies::verdict_convex(section, convex, clearance);
    crate::handing::judge(verdict, collision)
}
