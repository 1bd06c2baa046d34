// An edit of a store that lies at the front of a lent space: 12, the store's own numbers, 24, 22, 23, the outcome's.
ghost use Rattle.std.specs.Prelude.{◌≡◌};
ghost use Rattle.store.specs.Answers.{Accepted};
ghost use Rattle.store.specs.edits.Edits.{space_answer, Edited};
ghost use Rattle.store.specs.declared.edits.shapes.Place.TheVariants.{Record, Add};

use super::trying::{length_with, try_add, try_replace};
use crate::edits::{
    Edit, Place, Role, add_not_allowed, chain_of, holds, lowest, replace_not_allowed, space_answer,
};
use section::Refusal;

fn replace(
    space: &mut [u8],
    n: usize,
    role: Role,
    k: u32,
    bytes: &[u8; 40],
) -> Result<usize, Refusal>
    requires { space_answer space.old n ≡ Accepted }
    ensures { Edited space.old n role (Record k) bytes.now result space.new }
{
    let mut order = [0u32; 512];
    let count = chain_of(space, n, &mut order);
    if !holds(&order[..count], k) {
        return Err(Refusal::NoSuchRecord);
    }
    if replace_not_allowed(&space[..n], role, k, bytes) {
        return Err(Refusal::SettersEdit);
    }
    try_replace(space, n, k, bytes)
}

fn add(space: &mut [u8], n: usize, role: Role, bytes: &[u8; 40]) -> Result<usize, Refusal>
    requires { space_answer space.old n ≡ Accepted }
    ensures { Edited space.old n role Add bytes.now result space.new }
{
    let mut order = [0u32; 512];
    let count = chain_of(space, n, &mut order);
    if add_not_allowed(&space[..n], role, bytes) {
        return Err(Refusal::SettersEdit);
    }
    let m = lowest(&order[..count], n / 40);
    if 512 <= m {
        return Err(Refusal::StoreFull);
    }
    let last = count - 1;
    let t = order[last];
    try_add(space, length_with(n, m), m, t, bytes)
}

// The store's length afterwards; refused, no byte changes.
pub fn edit_store(space: &mut [u8], length: usize, edit: Edit) -> Result<usize, Refusal>
    ensures { Edited space.old length edit.role edit.place edit.bytes result space.new }
{
    space_answer(space, length)?;
    match edit.place {
        Place::Record(k) => replace(space, length, edit.role, k, &edit.bytes),
        Place::Add => add(space, length, edit.role, &edit.bytes),
    }
}
