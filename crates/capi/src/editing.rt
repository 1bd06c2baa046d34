// Stores of records: a verdict on one, and edits of one in the space that the caller lends.
ghost use Rattle.store.specs.Store.{store_answer};
ghost use Rattle.store.specs.edits.Written.{written};
ghost use Rattle.store.specs.declared.edits.shapes.Place.TheVariants.{Record, Add};
ghost use Rattle.capi.specs.given_edits.Editing.{edit_of, EditsSpace};
ghost use Rattle.capi.specs.Reading.{ReadsStore};

use store::Place;

pub fn jorghipa_replace(
    space: &mut [u8],
    length: usize,
    role: u32,
    record: u32,
    bytes: &[u8],
    length_after: &mut usize,
) -> u32
    ensures { let s = space.old in let b = bytes.now in
        EditsSpace (edit_of s length role (Record «record») b) (written s length (Record «record») b) result s space.new
        length_after.old length_after.new }
{
    crate::given_edits::edit_given(
        space,
        length,
        role,
        Place::Record(record),
        bytes,
        length_after,
    )
}

pub fn jorghipa_add(
    space: &mut [u8],
    length: usize,
    role: u32,
    bytes: &[u8],
    length_after: &mut usize,
) -> u32
    ensures { let s = space.old in let b = bytes.now in
        EditsSpace (edit_of s length role Add b) (written s length Add b) result s space.new
        length_after.old length_after.new }
{
    crate::given_edits::edit_given(space, length, role, Place::Add, bytes, length_after)
}

// The record is written where the store is refused: the K of the listing.
pub fn jorghipa_read_store(store: &[u8], record: &mut u32) -> u32
    ensures { ReadsStore (store_answer store.now) result «record».old «record».new }
{
    match store::read_store(store) {
        Err(refused) => {
            *record = refused.at;
            refused.refusal.number()
        }
        Ok(()) => 0,
    }
}
