// The builders of sections, into the space that the caller lends.
ghost use Rattle.section.specs.builders.Kept.{section_answer, polygon_answer, section_kept, polygon_kept};
ghost use Rattle.capi.specs.handing.Interface.{Builds};

#[unsafe(no_mangle)]
pub extern "C" fn jorghipa_build_section(points: &[f64], space: &mut [f64], kept: &mut usize) -> u32
    ensures { let s = points.now in let free = space.old in
        Builds (section_answer s free) (section_kept s free) result free space.new kept.old kept.new }
{
    capi::jorghipa_build_section(points, space, kept)
}

#[unsafe(no_mangle)]
pub extern "C" fn jorghipa_build_polygon(points: &[f64], space: &mut [f64], kept: &mut usize) -> u32
    ensures { let s = points.now in let free = space.old in
        Builds (polygon_answer s free) (polygon_kept s free) result free space.new kept.old kept.new }
{
    capi::jorghipa_build_polygon(points, space, kept)
}
