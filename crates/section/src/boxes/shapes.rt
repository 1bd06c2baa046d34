// A box beside a section.
ghost use Rattle.std.specs.Prelude.{◌≡◌};
ghost use Rattle.section.specs.ranges.Ranges.{sides_of};

use crate::profile::Aabb;
use crate::ranges::Sides;

// A box, and where its sides lie.
#[derive(Clone, Copy)]
pub struct SidedBox {
    pub aabb: Aabb,
    pub sides: Sides,
    ghost known: { sides ≡ sides_of aabb },
}
