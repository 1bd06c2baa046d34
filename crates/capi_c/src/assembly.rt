// Does anything hit: 1 yes, 0 no.
ghost use Rattle.capi.specs.handing.Interface.{Gives, mark};
ghost use Rattle.capi.specs.Calls.{any_hit_of};

#[unsafe(no_mangle)]
pub extern "C" fn jorghipa_any_hit(
    section: &[f64],
    kinds: &[u32],
    numbers: &[f64],
    clearance: f64,
    hit: &mut u32,
) -> u32
    ensures { Gives mark (any_hit_of section.now kinds.now numbers.now clearance)
        result hit.old hit.new }
{
    capi::jorghipa_any_hit(section, kinds, numbers, clearance, hit)
}
