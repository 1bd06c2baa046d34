// Trying a move: every step is one query, in order, and the first that is refused ends the move.
ghost use Rattle.section.specs.profile.Replies.{told, Answers};
ghost use Rattle.bodies.specs.moves.Moves.{move_answer, MovePromised};

use super::report::{untried, with_step};
use crate::moves::{Report, Travel, before_placing, placed_at};
use crate::{Body, query_body};
use section::Refusal;
use walk::Settings;

// The report, or why the call is turned down. It asks nothing of the caller.
pub fn try_move(
    section: &[f64],
    body: Body,
    clearance: f64,
    travel: Travel,
    settings: Settings,
) -> Result<Report, Refusal>
    ensures { let s = section.now in
        Answers (told result) (move_answer s body clearance travel settings) (MovePromised s body travel settings) }
{
    before_placing(section, body, clearance, travel, settings)?;
    let mut report = untried();
    for i in 0..=travel.steps {
        let there = placed_at(body, travel, i);
        let hit = query_body(section, there, settings)?;
        report = with_step(report, i, there, hit, clearance);
    }
    Ok(report)
}
