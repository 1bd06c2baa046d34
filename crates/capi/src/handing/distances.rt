// The hit of a distance, in the lent places.
ghost use Rattle.section.specs.profile.Replies.{OfValue, told};
ghost use Rattle.section.specs.Demand.{FewEdges};
ghost use Rattle.capi.specs.handing.Interface.{Gives, places, hit_places};

use section::{CollisionHit, Refusal};

// Puts a hit into the lent places, and gives the number of a refusal.
pub fn give(
    answer: Result<CollisionHit, Refusal>,
    distance: &mut f64,
    witness_z: &mut f64,
    witness_radius: &mut f64,
    edge: &mut u32,
) -> u32
    requires { OfValue FewEdges (told answer) }
    ensures { Gives hit_places (told answer) result
        (places distance.old witness_z.old witness_radius.old edge.old)
        (places distance.new witness_z.new witness_radius.new edge.new) }
{
    match answer {
        Ok(h) => {
            let at = h.witness;
            *distance = h.distance;
            *witness_z = at.z;
            *witness_radius = at.r;
            *edge = at.edge as u32;
            0
        }
        Err(refusal) => refusal.number(),
    }
}
