// What is turned down: section, clearance and count first, then the bodies in their order.
ghost use Rattle.std.specs.Prelude.{◌≡◌};
ghost use mathlib.Core.List.{flat_map};
ghost use Rattle.section.specs.profile.Numbers.{refused_by};
ghost use Rattle.section.specs.profile.Refusals.{refusal};
ghost use Rattle.bodies.specs.Bodies.{alone_tests};
ghost use Rattle.bodies.specs.assemblies.Assemblies.{count_tests, before_bodies};

use crate::{Body, body_alone};
use section::{Refusal, body_refusal};

// Number 17: more than 64 bodies.
#[tactic(auto, unfolding(section::specs::profile::Refusals::refusal))]
fn count_refusal(count: usize) -> Result<(), Refusal>
    ensures { refused_by result ≡ refusal (count_tests count) }
{
    if 64 < count {
        return Err(Refusal::TooManyBodies);
    }
    Ok(())
}

// The section's and the clearance's numbers, then 17.
pub fn before_bodies(section: &[f64], count: usize, clearance: f64) -> Result<(), Refusal>
    ensures { refused_by result ≡ refusal (before_bodies section.now count clearance) }
{
    let given = [clearance];
    let none = [0.0; 0];
    body_refusal(section, &given[..], &none, Ok(()), count_refusal(count))
}

// What the first bad body is turned down for.
pub fn bodies_refusal(bodies: &[Body]) -> Result<(), Refusal>
    ensures { refused_by result ≡ refusal (flat_map alone_tests bodies.now) }
{
    for body in bodies {
        body_alone(*body)?;
    }
    Ok(())
}
