// Trying a move: the report in the lent places.
ghost use Rattle.arith.specs.Vector.{vec};
ghost use Rattle.section.specs.profile.Replies.{told, Answers};
ghost use Rattle.walk.specs.settings.Settings.{settings};
ghost use Rattle.bodies.specs.moves.Moves.{MovePromised};
ghost use Rattle.capi.specs.handing.Interface.{Measures};
ghost use Rattle.capi.specs.lists.Lists.{body_at};
ghost use Rattle.capi.specs.handing.Moves.{move_places, report_places};
ghost use Rattle.capi.specs.Calls.{travel, move_of};

use crate::lists::{body_at, one_body_refusal};
use arith::Vec3;
use bodies::{Report, Travel};
use section::Refusal;
use walk::Settings;

// What is turned down of the body's kind and numbers comes before all else.
fn move_of(
    section: &[f64],
    kind: u32,
    numbers: &[f64],
    clearance: f64,
    travel: Travel,
    settings: Settings,
) -> Result<Report, Refusal>
    ensures { let s = section.now in let n = numbers.now in
        Answers (told result) (move_of s kind n clearance travel settings)
        (MovePromised s (body_at kind n 0) travel settings) }
{
    one_body_refusal(kind, numbers)?;
    bodies::try_move(
        section,
        body_at(kind, numbers, 0),
        clearance,
        travel,
        settings,
    )
}

pub fn jorghipa_move(
    section: &[f64],
    kind: u32,
    numbers: &[f64],
    clearance: f64,
    start_x: f64,
    start_y: f64,
    start_z: f64,
    end_x: f64,
    end_y: f64,
    end_z: f64,
    steps: u32,
    tolerance: f64,
    most: u32,
    intervals: u32,
    distance: &mut f64,
    step: &mut u32,
    collides: &mut u32,
    colliding_step: &mut u32,
    boxes: &mut u32,
) -> u32
    ensures { let s = section.now in let n = numbers.now in
        let v = travel (vec start_x start_y start_z) (vec end_x end_y end_z) steps in
        let t = settings tolerance most intervals in
        Measures (MovePromised s (body_at kind n 0) v t) report_places (move_of s kind n clearance v t) result
        (move_places distance.old step.old collides.old colliding_step.old
        boxes.old)
        (move_places distance.new step.new collides.new colliding_step.new
        boxes.new) }
{
    let start = Vec3 {
        x: start_x,
        y: start_y,
        z: start_z,
    };
    let end = Vec3 {
        x: end_x,
        y: end_y,
        z: end_z,
    };
    let settings = Settings {
        tolerance,
        most,
        intervals,
    };
    let travel = Travel { start, end, steps };
    let answer = move_of(section, kind, numbers, clearance, travel, settings);
    crate::handing::give_report(answer, distance, step, collides, colliding_step, boxes)
}
