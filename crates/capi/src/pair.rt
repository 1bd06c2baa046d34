// Chuck and work together: the winner, 0 the chuck or 1 the work, its distance, counts and mark.
ghost use Rattle.bodies.specs.pairs.Pairs.{told, pair_convex_answer, PairPromised, PairConvexPromised};
ghost use Rattle.capi.specs.lists.Lists.{body_at};
ghost use Rattle.capi.specs.handing.Interface.{Measures, places, counts, both};
ghost use Rattle.capi.specs.handing.Pairs.{pair_places, won_places};
ghost use Rattle.section.specs.profile.Replies.{Answers};
ghost use Rattle.capi.specs.Calls.{pair_of};

use crate::lists::{body_at, one_body_refusal};
use bodies::Won;
use section::Refusal;

// What is turned down of the body's kind and numbers comes before all else.
fn pair_of(chuck: &[f64], work: &[f64], kind: u32, numbers: &[f64]) -> Result<Won, Refusal>
    ensures { let c = chuck.now in let w = work.now in let n = numbers.now in
        Answers (told result) (pair_of c w kind n) (PairPromised c w (body_at kind n 0)) }
{
    one_body_refusal(kind, numbers)?;
    bodies::query_pair(chuck, work, body_at(kind, numbers, 0))
}

pub fn jorghipa_pair(
    chuck: &[f64],
    work: &[f64],
    kind: u32,
    numbers: &[f64],
    winner: &mut u32,
    distance: &mut f64,
    witness_z: &mut f64,
    witness_radius: &mut f64,
    edge: &mut u32,
    boxes: &mut u32,
    waiting: &mut u32,
    cut: &mut u32,
) -> u32
    ensures { let c = chuck.now in let w = work.now in let n = numbers.now in
        Measures (PairPromised c w (body_at kind n 0)) won_places (pair_of c w kind n) result
        (pair_places winner.old
        (both (places distance.old witness_z.old witness_radius.old edge.old)
        (counts boxes.old waiting.old cut.old)))
        (pair_places winner.new
        (both (places distance.new witness_z.new witness_radius.new edge.new)
        (counts boxes.new waiting.new cut.new))) }
{
    let answer = pair_of(chuck, work, kind, numbers);
    crate::handing::give_pair(
        answer,
        winner,
        distance,
        witness_z,
        witness_radius,
        edge,
        boxes,
        waiting,
        cut,
    )
}

pub fn jorghipa_pair_convex(
    chuck: &[f64],
    work: &[f64],
    convex: &[f64],
    winner: &mut u32,
    distance: &mut f64,
    witness_z: &mut f64,
    witness_radius: &mut f64,
    edge: &mut u32,
    boxes: &mut u32,
    waiting: &mut u32,
    cut: &mut u32,
) -> u32
    ensures { let c = chuck.now in let w = work.now in
        Measures (PairConvexPromised c w) won_places (pair_convex_answer c w convex.now) result
        (pair_places winner.old
        (both (places distance.old witness_z.old witness_radius.old edge.old)
        (counts boxes.old waiting.old cut.old)))
        (pair_places winner.new
        (both (places distance.new witness_z.new witness_radius.new edge.new)
        (counts boxes.new waiting.new cut.new))) }
{
    let answer = bodies::query_pair_convex(chuck, work, convex);
    crate::handing::give_pair(
        answer,
        winner,
        distance,
        witness_z,
        witness_radius,
        edge,
        boxes,
        waiting,
        cut,
    )
}
