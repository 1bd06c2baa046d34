// What is turned down of a cylinder: its tests in their order, and the first that is true.
ghost use Rattle.std.specs.Prelude.{◌≡◌};
ghost use Rattle.section.specs.profile.Numbers.{refused_by};
ghost use Rattle.section.specs.profile.Refusals.{refusal};
ghost use Rattle.walk.specs.bands.Axis as axes;
ghost use Rattle.walk.specs.cylinders.Cylinders.{cylinder_own};
ghost use Rattle.walk.specs.cylinders.Steps.{Checked};

use crate::bands::{Axis, Cylinder};
use section::{Outcome, Refusal, body_refusal};

// A negative radius, and an axis neither along nor across the spindle.
#[tactic(auto, unfolding(section::specs::profile::Refusals::refusal))]
pub fn own_refusal(radius: f64, axis: Axis) -> Result<(), Refusal>
    ensures { refused_by result ≡ refusal (cylinder_own radius axis) }
{
    if radius < 0.0 {
        return Err(Refusal::NegativeRadius);
    }
    match axis {
        Axis::Axial | Axis::AlongX | Axis::AlongY => Ok(()),
        Axis::Neither => Err(Refusal::SkewCylinder),
    }
}

pub fn cylinder_refusal<R: Outcome>(
    s: &[f64],
    c: Cylinder,
    axis: Axis,
    extra: &[f64],
    settings: R,
) -> R
    requires { axis ≡ axes.axis c }
    ensures { Checked s.now c extra.now (R.number settings) (R.number result) }
{
    let a = c.a;
    let b = c.b;
    let numbers = [a.x, a.y, a.z, b.x, b.y, b.z, c.radius];
    let own = R::of(own_refusal(c.radius, axis));
    body_refusal(s, &numbers[..], extra, settings, own)
}
