// The winner of a pair, 0 the chuck or 1 the work, and its hit, in the lent places.
ghost use Rattle.std.specs.Prelude.{◌≡◌};
ghost use Rattle.section.specs.profile.Replies.{OfValue};
ghost use Rattle.bodies.specs.pairs.Pairs.{told, won_by};
ghost use Rattle.capi.specs.handing.Interface.{Gives, places, counts, both, mark};
ghost use Rattle.capi.specs.handing.Pairs.{pair_places, won_places, WonFits};

use super::cylinder::give_counted;
use bodies::Won;
use section::Refusal;
use walk::CountedHit;

// 1 where the work won.
fn mark_of(won: Won) -> u32
    ensures { result ≡ mark (won_by won).work }
{
    match won {
        Won::Chuck(_) => 0,
        Won::Work(_) => 1,
    }
}

fn hit_of(won: Won) -> CountedHit
    ensures { result ≡ (won_by won).counted }
{
    match won {
        Won::Chuck(h) => h,
        Won::Work(h) => h,
    }
}

// Puts the winner and its hit into the lent places, and gives the number of a refusal.
pub fn give_pair(
    answer: Result<Won, Refusal>,
    winner: &mut u32,
    distance: &mut f64,
    witness_z: &mut f64,
    witness_radius: &mut f64,
    edge: &mut u32,
    boxes: &mut u32,
    waiting: &mut u32,
    cut: &mut u32,
) -> u32
    requires { OfValue WonFits (told answer) }
    ensures { Gives won_places (told answer) result
        (pair_places winner.old
        (both (places distance.old witness_z.old witness_radius.old edge.old)
        (counts boxes.old waiting.old cut.old)))
        (pair_places winner.new
        (both (places distance.new witness_z.new witness_radius.new edge.new)
        (counts boxes.new waiting.new cut.new))) }
{
    match answer {
        Ok(won) => {
            *winner = mark_of(won);
            give_counted(
                hit_of(won),
                distance,
                witness_z,
                witness_radius,
                edge,
                boxes,
                waiting,
                cut,
            )
        }
        Err(refusal) => refusal.number(),
    }
}
