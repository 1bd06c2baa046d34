// The distance of a cylinder, with its counts and its mark.
ghost use Rattle.std.specs.Prelude.{◌≡◌};
ghost use Rattle.arith.specs.Vector.{vec};
ghost use Rattle.walk.specs.cylinders.Cylinders.{cylinder_answer};
ghost use Rattle.walk.specs.cylinders.Promised.{Promised};
ghost use Rattle.walk.specs.settings.Settings.{settings};
ghost use Rattle.walk.specs.bands.Band.{bar};
ghost use Rattle.capi.specs.handing.Interface.{Measures, places, counts, both, cylinder_places};

use arith::Vec3;
use walk::{Cylinder, Settings};

// A cylinder by the numbers of its ends.
pub fn bar(ax: f64, ay: f64, az: f64, bx: f64, by: f64, bz: f64, radius: f64) -> Cylinder
    ensures { result ≡ bar (vec ax ay az) (vec bx by bz) radius }
{
    let a = Vec3 {
        x: ax,
        y: ay,
        z: az,
    };
    let b = Vec3 {
        x: bx,
        y: by,
        z: bz,
    };
    Cylinder { a, b, radius }
}

pub fn jorghipa_cylinder(
    section: &[f64],
    ax: f64,
    ay: f64,
    az: f64,
    bx: f64,
    by: f64,
    bz: f64,
    radius: f64,
    tolerance: f64,
    most: u32,
    intervals: u32,
    distance: &mut f64,
    witness_z: &mut f64,
    witness_radius: &mut f64,
    edge: &mut u32,
    boxes: &mut u32,
    waiting: &mut u32,
    cut: &mut u32,
) -> u32
    ensures { let s = section.now in let c = bar (vec ax ay az) (vec bx by bz) radius in
        let t = settings tolerance most intervals in
        Measures (Promised s c t) cylinder_places (cylinder_answer s c t) result
        (both (places distance.old witness_z.old witness_radius.old edge.old)
        (counts boxes.old waiting.old cut.old))
        (both (places distance.new witness_z.new witness_radius.new edge.new)
        (counts boxes.new waiting.new cut.new)) }
{
    let settings = Settings {
        tolerance,
        most,
        intervals,
    };
    let answer = walk::query_cylinder(section, bar(ax, ay, az, bx, by, bz, radius), settings);
    crate::handing::give_cylinder(
        answer,
        distance,
        witness_z,
        witness_radius,
        edge,
        boxes,
        waiting,
        cut,
    )
}
