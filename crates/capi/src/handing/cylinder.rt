// The hit of a cylinder, with its counts and its mark, in the lent places.
ghost use Rattle.std.specs.Prelude.{◌≤◌, ◌≡◌};
ghost use Rattle.section.specs.profile.Replies.{OfValue, told, value};
ghost use Rattle.capi.specs.handing.Interface.{Gives, places, counts, both, hit_counts, cylinder_places, FitsPlaces};

use super::distances::give;
use section::Refusal;
use walk::CountedHit;

// Puts the counts and the mark of a hit into the lent places.
pub fn give_counts(h: CountedHit, boxes: &mut u32, waiting: &mut u32, cut: &mut u32)
    requires { (h.boxes ≤ 4294967295) × (h.waiting ≤ 4294967295) }
    ensures { counts boxes.new waiting.new cut.new ≡ hit_counts h }
{
    *boxes = h.boxes as u32;
    *waiting = h.waiting as u32;
    *cut = u32::from(h.cut);
}

// Puts a hit with its counts and mark into the lent places.
pub fn give_counted(
    h: CountedHit,
    distance: &mut f64,
    witness_z: &mut f64,
    witness_radius: &mut f64,
    edge: &mut u32,
    boxes: &mut u32,
    waiting: &mut u32,
    cut: &mut u32,
) -> u32
    requires { FitsPlaces h }
    ensures { Gives cylinder_places (value h) result
        (both (places distance.old witness_z.old witness_radius.old edge.old)
        (counts boxes.old waiting.old cut.old))
        (both (places distance.new witness_z.new witness_radius.new edge.new)
        (counts boxes.new waiting.new cut.new)) }
{
    let hit = h.hit;
    give_counts(h, boxes, waiting, cut);
    give(Ok(hit), distance, witness_z, witness_radius, edge)
}

// Puts a cylinder's hit, its counts and its mark into the lent places, and gives the number of a refusal.
pub fn give_cylinder(
    answer: Result<CountedHit, Refusal>,
    distance: &mut f64,
    witness_z: &mut f64,
    witness_radius: &mut f64,
    edge: &mut u32,
    boxes: &mut u32,
    waiting: &mut u32,
    cut: &mut u32,
) -> u32
    requires { OfValue FitsPlaces (told answer) }
    ensures { Gives cylinder_places (told answer) result
        (both (places distance.old witness_z.old witness_radius.old edge.old)
        (counts boxes.old waiting.old cut.old))
        (both (places distance.new witness_z.new witness_radius.new edge.new)
        (counts boxes.new waiting.new cut.new)) }
{
    match answer {
        Ok(h) => give_counted(
            h,
            distance,
            witness_z,
            witness_radius,
            edge,
            boxes,
            waiting,
            cut,
        ),
        Err(refusal) => refusal.number(),
    }
}
