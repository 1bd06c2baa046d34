// The verdict on a space with a store at its front, and the chain of an accepted one.
ghost use Rattle.std.specs.Prelude.{◌≡◌, ◌≤◌, length, take};
ghost use Rattle.store.specs.Store.{chained};
ghost use Rattle.store.specs.Answers.{Accepted, told};
ghost use Rattle.store.specs.edits.Edits.{space_answer};

use crate::RefusedStore;
use section::Refusal;

// A length past the space is refused before it is used.
pub fn space_answer(space: &[u8], n: usize) -> Result<(), RefusedStore>
    ensures { told result ≡ space_answer space.now n }
{
    if space.len() != 20480 {
        return Err(Refusal::StoreLength.into());
    }
    crate::reader::length_answer(n)?;
    crate::reader::read_store(&space[..n])
}

// Puts the chained records of an accepted store into order, and says how many there are.
pub fn chain_of(space: &[u8], n: usize, order: &mut [u32]) -> usize
    requires { (space_answer space.now n ≡ Accepted) × (length order.old ≡ 512) }
    ensures { (take result order.new ≡ chained (take n space.now)) × (result ≤ 512) }
{
    crate::reader::read_chain(&space[..n], order).unwrap_or(0)
}
