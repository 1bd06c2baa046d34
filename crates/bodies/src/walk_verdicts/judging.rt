// The verdict on a cylinder, with the counts and the mark of its walk at the finest settings.
ghost use Rattle.std.specs.Prelude.{◌≡◌};
ghost use Rattle.section.specs.profile.Replies.{told, Answers};
ghost use Rattle.walk.specs.settings.Settings.{finest};
ghost use Rattle.bodies.specs.walk_verdicts.WalkVerdicts.{judged_walk, walk_verdict, FewCounted};

use super::shapes::JudgedWalk;
use crate::verdicts::{collides, less_tilt};
use section::Refusal;
use walk::{Axis, CountedHit, Cylinder, axis_of, cylinder_distance, cylinder_refusal, finest};

// What is told of a hit.
fn judged_walk(axis: Axis, cylinder: Cylinder, clearance: f64, h: CountedHit) -> JudgedWalk
    ensures { result ≡ judged_walk axis cylinder clearance h }
{
    let distance = less_tilt(axis, cylinder, h.hit.distance);
    JudgedWalk {
        collision: collides(distance, clearance),
        boxes: h.boxes,
        waiting: h.waiting,
        cut: h.cut,
    }
}

pub fn verdict_walk(
    section: &[f64],
    cylinder: Cylinder,
    clearance: f64,
) -> Result<JudgedWalk, Refusal>
    ensures { Answers (told result) (walk_verdict section.now cylinder clearance) FewCounted }
{
    let extra = [clearance];
    let axis = axis_of(cylinder);
    cylinder_refusal(section, cylinder, axis, &extra[..], Ok(()))?;
    let counted = cylinder_distance(section, cylinder, axis, finest());
    Ok(judged_walk(axis, cylinder, clearance, counted))
}
