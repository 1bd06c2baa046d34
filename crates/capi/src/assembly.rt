// Does anything hit: 1 yes, 0 no.
ghost use Rattle.std.specs.Prelude.{◌≡◌};
ghost use Rattle.bodies.specs.verdicts.Verdicts.{told};
ghost use Rattle.capi.specs.handing.Interface.{Gives, mark};
ghost use Rattle.capi.specs.Calls.{any_hit_of};

use crate::lists::{bodies_of, front_of, lists_refusal};
use bodies::Verdict;
use section::Refusal;

// What is turned down of the lists comes before all else.
fn any_hit_of(
    section: &[f64],
    kinds: &[u32],
    numbers: &[f64],
    clearance: f64,
) -> Result<Verdict, Refusal>
    ensures { told result ≡ any_hit_of section.now kinds.now numbers.now clearance }
{
    lists_refusal(kinds, numbers)?;
    let bodies = bodies_of(kinds, numbers, front_of(kinds.len()));
    bodies::any_hit(section, bodies, kinds.len(), clearance)
}

pub fn jorghipa_any_hit(
    section: &[f64],
    kinds: &[u32],
    numbers: &[f64],
    clearance: f64,
    hit: &mut u32,
) -> u32
    ensures { Gives mark (any_hit_of section.now kinds.now numbers.now clearance)
        result hit.old hit.new }
{
    crate::handing::judge(any_hit_of(section, kinds, numbers, clearance), hit)
}
