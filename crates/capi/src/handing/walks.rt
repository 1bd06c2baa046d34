// A verdict with what its walk counted, in the lent places.
ghost use Rattle.section.specs.profile.Replies.{OfValue, told};
ghost use Rattle.bodies.specs.walk_verdicts.WalkVerdicts.{FewCounted};
ghost use Rattle.capi.specs.handing.Interface.{Gives, counts};
ghost use Rattle.capi.specs.handing.Walks.{judged_places, walk_places};

use bodies::JudgedWalk;
use section::Refusal;

// Puts a verdict, the counts and the mark into the lent places, and gives the number of a refusal.
pub fn give_walk(
    verdict: Result<JudgedWalk, Refusal>,
    collision: &mut u32,
    boxes: &mut u32,
    waiting: &mut u32,
    cut: &mut u32,
) -> u32
    requires { OfValue FewCounted (told verdict) }
    ensures { Gives walk_places (told verdict) result
        (judged_places collision.old (counts boxes.old waiting.old cut.old))
        (judged_places collision.new (counts boxes.new waiting.new cut.new)) }
{
    match verdict {
        Ok(w) => {
            *collision = u32::from(w.collision);
            *boxes = w.boxes as u32;
            *waiting = w.waiting as u32;
            *cut = u32::from(w.cut);
            0
        }
        Err(refusal) => refusal.number(),
    }
}
