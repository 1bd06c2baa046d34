// The report of a move, in the lent places.
ghost use Rattle.section.specs.profile.Replies.{told};
ghost use Rattle.capi.specs.handing.Interface.{Gives};
ghost use Rattle.capi.specs.handing.Moves.{move_places, report_places};

use bodies::Report;
use section::Refusal;

// Puts a report into the lent places, and gives the number of a refusal.
pub fn give_report(
    answer: Result<Report, Refusal>,
    distance: &mut f64,
    step: &mut u32,
    collides: &mut u32,
    colliding_step: &mut u32,
    boxes: &mut u32,
) -> u32
    ensures { Gives report_places (told answer) result
        (move_places distance.old step.old collides.old colliding_step.old
        boxes.old)
        (move_places distance.new step.new collides.new colliding_step.new
        boxes.new) }
{
    match answer {
        Ok(r) => {
            *distance = r.distance;
            *step = r.step;
            *collides = u32::from(r.colliding_step.is_some());
            *colliding_step = r.colliding_step.unwrap_or(0);
            *boxes = r.boxes;
            0
        }
        Err(refusal) => refusal.number(),
    }
}
