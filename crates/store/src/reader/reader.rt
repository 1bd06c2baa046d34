// Reading a store: its refusals in their order, 12, 15, 16, 13, 14, then 2 to 6 of its section.
ghost use Rattle.std.specs.Prelude.{◌≡◌, length};
ghost use Rattle.store.specs.Answers.{told};
ghost use Rattle.store.specs.Chain.{chain};
ghost use Rattle.store.specs.Kinds.{kinds_answer};
ghost use Rattle.store.specs.Radii.{radii_answer};
ghost use Rattle.store.specs.Store.{and_then, length_answer, links_answer, chained, vertices, section_answer, store_answer};
ghost use Rattle.store.specs.Steps.{SectionRoom, Fills};

use super::radii::radii_answer;
use super::vertices::gather;
use crate::{RefusedStore, follow_chain, kinds_answer};
use section::{Refusal, list_refusal};

// The verdict on a length alone.
pub fn length_answer(n: usize) -> Result<(), RefusedStore>
    ensures { told result ≡ length_answer n }
{
    if n % 40 > 0 {
        return Err(Refusal::StoreLength.into());
    }
    if n == 0 {
        return Err(Refusal::EmptyStore.into());
    }
    if n / 40 > 512 {
        return Err(Refusal::TooManyRecords.into());
    }
    Ok(())
}

// Fills order with the chained records.
pub fn read_chain(store: &[u8], order: &mut [u32]) -> Result<usize, RefusedStore>
    requires { length order.old ≡ 512 }
    ensures { let b = store.now in
        Fills (and_then (length_answer (length b)) (links_answer (chain b))) (chained b) result order.new }
{
    length_answer(store.len())?;
    follow_chain(store, order)
}

// Fills space with the section, once the kinds are right.
pub fn read_section(store: &[u8], order: &[u32], space: &mut [f64]) -> Result<usize, RefusedStore>
    requires { SectionRoom order.now space.old }
    ensures { let b = store.now in let ks = order.now in let s = vertices b ks in
        Fills (and_then (kinds_answer b ks) (and_then (section_answer s) (radii_answer b ks))) s result space.new }
{
    kinds_answer(store, order)?;
    fill_section(store, order, space)
}

fn fill_section(store: &[u8], order: &[u32], space: &mut [f64]) -> Result<usize, RefusedStore>
    requires { SectionRoom order.now space.old }
    ensures { let b = store.now in let ks = order.now in let s = vertices b ks in
        Fills (and_then (section_answer s) (radii_answer b ks)) s result space.new }
{
    let n = gather(store, order, space);
    if n > 256 {
        return Err(Refusal::TooManyVertices.into());
    }
    let end = n * 2;
    list_refusal(&space[..end], 3, 256)?;
    radii_answer(store, order)?;
    Ok(end)
}

// Accepted, or refused with its number and the record K.
pub fn read_store(store: &[u8]) -> Result<(), RefusedStore>
    ensures { told result ≡ store_answer store.now }
{
    let mut order = [0u32; 512];
    let mut space = [0.0; 512];
    let n = read_chain(store, &mut order)?;
    read_section(store, &order[..n], &mut space)?;
    Ok(())
}
