// Where a search for the nearest edge may start once it has met one.
ghost use Rattle.section.specs.ranges.Search.{StartOver};

use crate::profile::CollisionHit;

// A little over what was found, where there is such a number.
pub fn start_over(first: CollisionHit, none: CollisionHit) -> CollisionHit
    ensures { StartOver first none result }
{
    let witness = none.witness;
    let bar = first.distance * 1.0000001 + 1e-18;
    if first.distance < bar {
        return CollisionHit {
            distance: bar,
            witness,
        };
    }
    none
}
