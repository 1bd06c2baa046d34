// Number 22: what only a setter may do.
ghost use Rattle.std.specs.Prelude.{◌≡◌};
ghost use Rattle.store.specs.edits.Edits.{not_allowed};
ghost use Rattle.store.specs.declared.edits.shapes.Place.TheVariants.{Record, Add};

use super::shapes::Role;
use crate::{Kind, is_kind, next_of};

pub fn replace_not_allowed(store: &[u8], role: Role, k: u32, bytes: &[u8]) -> bool
    ensures { result ≡ not_allowed store.now role (Record k) bytes.now }
{
    match role {
        Role::Setter => false,
        Role::Operator => {
            k == 0
                || (is_kind(store, k, Kind::Vertex)
                    || (next_of(bytes, 0) != next_of(store, k) || is_kind(bytes, 0, Kind::Vertex)))
        }
    }
}

pub fn add_not_allowed(store: &[u8], role: Role, added: &[u8]) -> bool
    ensures { result ≡ not_allowed store.now role Add added.now }
{
    match role {
        Role::Setter => false,
        Role::Operator => is_kind(added, 0, Kind::Vertex),
    }
}
