// The hits whose witness is in the machine's axes, in the lent places.
ghost use Rattle.section.specs.profile.Replies.{OfValue, told};
ghost use Rattle.capi.specs.handing.Interface.{Gives, counts, both};
ghost use Rattle.capi.specs.handing.Lifting.{lifted, lifted_places, lifted_cylinder_places, FewLifted, LiftedFits};

use super::cylinder::give_counts;
use bodies::Lifted;
use section::{CollisionHit, Refusal};
use walk::CountedHit;

// Puts a hit and its lifted witness into the lent places, and gives the number of a refusal.
pub fn give_lifted(
    answer: Result<Lifted<CollisionHit>, Refusal>,
    distance: &mut f64,
    witness_x: &mut f64,
    witness_y: &mut f64,
    witness_z: &mut f64,
    edge: &mut u32,
) -> u32
    requires { OfValue FewLifted (told answer) }
    ensures { Gives lifted_places (told answer) result
        (lifted distance.old witness_x.old witness_y.old witness_z.old
        edge.old)
        (lifted distance.new witness_x.new witness_y.new witness_z.new
        edge.new) }
{
    match answer {
        Ok(h) => {
            let hit = h.hit;
            let at = h.witness;
            let plain = hit.witness;
            *distance = hit.distance;
            *witness_x = at.x;
            *witness_y = at.y;
            *witness_z = at.z;
            *edge = plain.edge as u32;
            0
        }
        Err(refusal) => refusal.number(),
    }
}

// Puts a cylinder's hit, its lifted witness, its counts and its mark into the lent places, and gives the number of a refusal.
pub fn give_lifted_cylinder(
    answer: Result<Lifted<CountedHit>, Refusal>,
    distance: &mut f64,
    witness_x: &mut f64,
    witness_y: &mut f64,
    witness_z: &mut f64,
    edge: &mut u32,
    boxes: &mut u32,
    waiting: &mut u32,
    cut: &mut u32,
) -> u32
    requires { OfValue LiftedFits (told answer) }
    ensures { Gives lifted_cylinder_places (told answer) result
        (both (lifted distance.old witness_x.old witness_y.old witness_z.old
        edge.old)
        (counts boxes.old waiting.old cut.old))
        (both (lifted distance.new witness_x.new witness_y.new witness_z.new
        edge.new)
        (counts boxes.new waiting.new cut.new)) }
{
    match answer {
        Ok(h) => {
            let counted = h.hit;
            let hit = counted.hit;
            let witness = h.witness;
            give_counts(counted, boxes, waiting, cut);
            give_lifted(
                Ok(Lifted { hit, witness }),
                distance,
                witness_x,
                witness_y,
                witness_z,
                edge,
            )
        }
        Err(refusal) => refusal.number(),
    }
}
