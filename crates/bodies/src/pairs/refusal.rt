// What is turned down: every number of the chuck's list, then of the work's, then the body's own.
ghost use Rattle.std.specs.Prelude.{◌≡◌};
ghost use Rattle.section.specs.profile.Numbers.{refused_by};
ghost use Rattle.section.specs.profile.Refusals.{refusal};
ghost use Rattle.section.specs.profile.Steps.{or_else};
ghost use Rattle.bodies.specs.pairs.Pairs.{one_section_tests};

use section::{Refusal, any_below_axis, list_refusal};

// Numbers 1 to 6 of a section of 3 to 256 vertices.
fn section_refusal(section: &[f64]) -> Result<(), Refusal>
    ensures { refused_by result ≡ refusal (one_section_tests section.now) }
{
    list_refusal(section, 3, 256)?;
    if any_below_axis(section) {
        return Err(Refusal::RadiusBelowAxis);
    }
    Ok(())
}

pub fn pair_refusal(chuck: &[f64], work: &[f64], own: Result<(), Refusal>) -> Result<(), Refusal>
    ensures { let c = refusal (one_section_tests chuck.now) in let w = refusal (one_section_tests work.now) in
        refused_by result ≡ or_else c (or_else w (refused_by own)) }
{
    section_refusal(chuck)?;
    section_refusal(work)?;
    own
}
