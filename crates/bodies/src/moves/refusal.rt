// What is turned down before the body is placed anywhere.
ghost use Rattle.std.specs.Prelude.{◌≡◌};
ghost use Rattle.section.specs.profile.Numbers.{refused_by};
ghost use Rattle.section.specs.profile.Refusals.{refusal};
ghost use Rattle.section.specs.profile.Steps.{WithSettings};
ghost use Rattle.bodies.specs.Bodies.{body_tests};
ghost use Rattle.bodies.specs.moves.Moves.{steps_tests, before_placing};

use super::shapes::Travel;
use crate::Body;
use section::{Refusal, box_refusal, sphere_refusal};
use walk::{Settings, axis_of, cylinder_refusal, settings_refusal};

// A body of any kind beside a section, with more numbers that are given, and what is turned down of the call's settings.
fn beside_refusal(
    section: &[f64],
    body: Body,
    extra: &[f64],
    settings: Result<(), Refusal>,
) -> Result<(), Refusal>
    ensures { WithSettings (refused_by settings) (body_tests section.now body extra.now) (refused_by result) }
{
    match body {
        Body::Sphere(b) => sphere_refusal(section, b, extra, settings),
        Body::Box(b) => box_refusal(section, b, extra, settings),
        Body::Cylinder(c) => cylinder_refusal(section, c, axis_of(c), extra, settings),
    }
}

// Number 19: no step, or more than 4,096.
#[tactic(auto, unfolding(section::specs::profile::Refusals::refusal))]
fn steps_refusal(steps: u32) -> Result<(), Refusal>
    ensures { refused_by result ≡ refusal (steps_tests steps) }
{
    if steps < 1 || 4096 < steps {
        return Err(Refusal::BadSteps);
    }
    Ok(())
}

// Section, body, clearance, offsets and settings are tested first, then the steps.
pub fn before_placing(
    section: &[f64],
    body: Body,
    clearance: f64,
    travel: Travel,
    settings: Settings,
) -> Result<(), Refusal>
    ensures { refused_by result ≡ refusal (before_placing section.now body clearance travel settings) }
{
    let start = travel.start;
    let end = travel.end;
    let extra = [clearance, start.x, start.y, start.z, end.x, end.y, end.z];
    let given = beside_refusal(section, body, &extra[..], settings_refusal(settings));
    given.and(steps_refusal(travel.steps))
}
