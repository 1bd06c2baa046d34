// The distance of a cylinder, by its axis, and the query: a hit with its counts, or why it is turned down.
ghost use Rattle.std.specs.Prelude.{◌≡◌, ◌≤◌};
ghost use Rattle.section.specs.profile.Vertices.{count};
ghost use Rattle.section.specs.boxes.Boxes.{box_distance};
ghost use Rattle.walk.specs.bands.Band.{axial_box, band_of};
ghost use Rattle.walk.specs.Walk.{one_box, band_distance};
ghost use Rattle.walk.specs.cylinders.Cylinders.{cylinder_distance, cylinder_answer};
ghost use Rattle.walk.specs.cylinders.Promised.{Promised};
ghost use Rattle.walk.specs.cylinders.Steps.{Measurable};
ghost use Rattle.section.specs.profile.Replies.{told, Answers};
ghost use Rattle.walk.specs.Steps.{WalkableWith};

use super::refusal::cylinder_refusal;
use crate::CountedHit;
use crate::bands::{Axis, Cylinder, RadialBand, axial_box, axis_of, exchanged};
use crate::settings::{Settings, settings_refusal};
use crate::walker::{band_distance, one_box};
use section::Refusal;

fn query_axial(s: &[f64], c: Cylinder) -> CountedHit
    requires { 3 ≤ count s.now }
    ensures { result ≡ one_box (box_distance s.now (axial_box c)) }
{
    one_box(s, axial_box(c))
}

fn query_radial(s: &[f64], c: Cylinder, t: Settings) -> CountedHit
    requires { WalkableWith s.now (band_of c) t }
    ensures { result ≡ band_distance s.now (band_of c) t }
{
    band_distance(s, RadialBand::from_cylinder(c), t)
}

#[tactic(auto, unfolding(crate::specs::cylinders::Cylinders::cylinder_distance))]
pub fn cylinder_distance(s: &[f64], c: Cylinder, axis: Axis, t: Settings) -> CountedHit
    requires { Measurable s.now c axis t }
    ensures { result ≡ cylinder_distance s.now c t }
{
    match axis {
        Axis::Axial | Axis::Neither => query_axial(s, c),
        Axis::AlongX => query_radial(s, c, t),
        Axis::AlongY => query_radial(s, exchanged(c), t),
    }
}

// A hit with its counts and mark, or why the call is turned down. It asks nothing of the caller.
pub fn query_cylinder(
    section: &[f64],
    cylinder: Cylinder,
    settings: Settings,
) -> Result<CountedHit, Refusal>
    ensures { let s = section.now in
        Answers (told result) (cylinder_answer s cylinder settings) (Promised s cylinder settings) }
{
    let none = [0.0; 0];
    let axis = axis_of(cylinder);
    cylinder_refusal(section, cylinder, axis, &none, settings_refusal(settings))?;
    Ok(cylinder_distance(section, cylinder, axis, settings))
}
