// Yes or no for a whole assembly: every body is checked, then they are judged until one collides.
ghost use Rattle.std.specs.Prelude.{◌≡◌};
ghost use Rattle.section.specs.profile.Refusals.{any_of};
ghost use Rattle.bodies.specs.verdicts.Verdicts.{told};
ghost use Rattle.bodies.specs.assemblies.Assemblies.{any_hit};
ghost use Rattle.bodies.specs.assemblies.Steps.{own_collision};

use super::refusal::{before_bodies, bodies_refusal};
use crate::Body;
use crate::verdicts::{Verdict, verdict_body};
use section::Refusal;

// The body's own verdict is collision.
fn own_collision(section: &[f64], body: Body, clearance: f64) -> bool
    ensures { result ≡ own_collision section.now clearance body }
{
    matches!(
        verdict_body(section, body, clearance),
        Ok(Verdict::Collision)
    )
}

// None is judged after the first that collides.
fn any_collision(section: &[f64], bodies: &[Body], clearance: f64) -> bool
    ensures { result ≡ any_of (own_collision section.now clearance) bodies.now }
{
    bodies
        .iter()
        .any(|body| own_collision(section, *body, clearance))
}

// Collision or clear, or why the call is turned down. It asks nothing of the caller; what stands in the array
// behind the count is not looked at.
pub fn any_hit(
    section: &[f64],
    bodies: [Body; 64],
    count: usize,
    clearance: f64,
) -> Result<Verdict, Refusal>
    ensures { told result ≡ any_hit section.now bodies count clearance }
{
    before_bodies(section, count, clearance)?;
    let given = &bodies[..count];
    bodies_refusal(given)?;
    Ok(Verdict::from(any_collision(section, given, clearance)))
}
