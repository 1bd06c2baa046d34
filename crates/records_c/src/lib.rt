// The C interface over vertex records, for the archive librecords_c.a: each function of `records` under
// its name, the section as a pointer and a count. crates/records/jorghipa_records.h declares them and
// says what the caller owes.
#![tactic(auto)]

ghost use Rattle.std.specs.Prelude.{◌≡◌};
ghost use Rattle.section.specs.Answers.{point_answer, sphere_answer, box_answer};
ghost use Rattle.walk.specs.cylinders.Cylinders.{cylinder_answer};
ghost use Rattle.walk.specs.settings.Settings.{finest};
ghost use Rattle.records.specs.Flattened.{flattened};
ghost use Rattle.records.specs.Replies.{point_of, sphere_of, box_of, cylinder_of, c_reply, c_cylinder_reply};

use records::{Ball, Bar, Bounds, CylinderReply, Place, Reply};
use section::Vertex;

#[unsafe(no_mangle)]
pub extern "C" fn jorghipa_point_of(section: &[Vertex], place: Place) -> Reply
    ensures { result ≡ c_reply (point_answer (flattened section.now) (point_of place)) }
{
    records::jorghipa_point_of(section, place)
}

#[unsafe(no_mangle)]
pub extern "C" fn jorghipa_sphere_of(section: &[Vertex], ball: Ball) -> Reply
    ensures { result ≡ c_reply (sphere_answer (flattened section.now) (sphere_of ball)) }
{
    records::jorghipa_sphere_of(section, ball)
}

#[unsafe(no_mangle)]
pub extern "C" fn jorghipa_box_of(section: &[Vertex], bounds: Bounds) -> Reply
    ensures { result ≡ c_reply (box_answer (flattened section.now) (box_of bounds)) }
{
    records::jorghipa_box_of(section, bounds)
}

#[unsafe(no_mangle)]
pub extern "C" fn jorghipa_cylinder_of(section: &[Vertex], bar: Bar) -> CylinderReply
    ensures { result ≡ c_cylinder_reply (cylinder_answer (flattened section.now) (cylinder_of bar) finest) }
{
    records::jorghipa_cylinder_of(section, bar)
}
