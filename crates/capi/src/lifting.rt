// The distances of bodies that have a middle in x and y, with the witness in the machine's axes.
ghost use Rattle.arith.specs.Vector.{vec};
ghost use Rattle.section.specs.profile.Vertices.{ball};
ghost use Rattle.section.specs.Demand.{BoundedOffAxis};
ghost use Rattle.walk.specs.settings.Settings.{finest};
ghost use Rattle.walk.specs.bands.Band.{bar};
ghost use Rattle.walk.specs.cylinders.Promised.{Promised};
ghost use Rattle.bodies.specs.lifted.Answers.{lifted_point, lifted_sphere, lifted_cylinder, middle_x, middle_y};
ghost use Rattle.bodies.specs.lifted.Placed.{WithPlace, WithPlaceCounted};
ghost use Rattle.capi.specs.handing.Interface.{Measures, counts, both};
ghost use Rattle.capi.specs.handing.Lifting.{lifted, lifted_places, lifted_cylinder_places};

use crate::cylinder::bar;
use arith::Vec3;
use section::Sphere;

pub fn jorghipa_lifted_point(
    section: &[f64],
    x: f64,
    y: f64,
    z: f64,
    distance: &mut f64,
    witness_x: &mut f64,
    witness_y: &mut f64,
    witness_z: &mut f64,
    edge: &mut u32,
) -> u32
    ensures { let s = section.now in
        Measures (WithPlace (BoundedOffAxis s) x y) lifted_places (lifted_point s (vec x y z)) result
        (lifted distance.old witness_x.old witness_y.old witness_z.old
        edge.old)
        (lifted distance.new witness_x.new witness_y.new witness_z.new
        edge.new) }
{
    let answer = bodies::lifted_point(section, Vec3 { x, y, z });
    crate::handing::give_lifted(answer, distance, witness_x, witness_y, witness_z, edge)
}

pub fn jorghipa_lifted_sphere(
    section: &[f64],
    x: f64,
    y: f64,
    z: f64,
    radius: f64,
    distance: &mut f64,
    witness_x: &mut f64,
    witness_y: &mut f64,
    witness_z: &mut f64,
    edge: &mut u32,
) -> u32
    ensures { let s = section.now in
        Measures (WithPlace (BoundedOffAxis s) x y) lifted_places (lifted_sphere s (ball (vec x y z) radius)) result
        (lifted distance.old witness_x.old witness_y.old witness_z.old
        edge.old)
        (lifted distance.new witness_x.new witness_y.new witness_z.new
        edge.new) }
{
    let center = Vec3 { x, y, z };
    let answer = bodies::lifted_sphere(section, Sphere { center, radius });
    crate::handing::give_lifted(answer, distance, witness_x, witness_y, witness_z, edge)
}

pub fn jorghipa_lifted_cylinder(
    section: &[f64],
    ax: f64,
    ay: f64,
    az: f64,
    bx: f64,
    by: f64,
    bz: f64,
    radius: f64,
    distance: &mut f64,
    witness_x: &mut f64,
    witness_y: &mut f64,
    witness_z: &mut f64,
    edge: &mut u32,
    boxes: &mut u32,
    waiting: &mut u32,
    cut: &mut u32,
) -> u32
    ensures { let s = section.now in let c = bar (vec ax ay az) (vec bx by bz) radius in
        Measures (WithPlaceCounted (Promised s c finest) (middle_x c) (middle_y c)) lifted_cylinder_places (lifted_cylinder s c) result
        (both (lifted distance.old witness_x.old witness_y.old witness_z.old
        edge.old)
        (counts boxes.old waiting.old cut.old))
        (both (lifted distance.new witness_x.new witness_y.new witness_z.new
        edge.new)
        (counts boxes.new waiting.new cut.new)) }
{
    let answer = bodies::lifted_cylinder(section, bar(ax, ay, az, bx, by, bz, radius));
    crate::handing::give_lifted_cylinder(
        answer, distance, witness_x, witness_y, witness_z, edge, boxes, waiting, cut,
    )
}
