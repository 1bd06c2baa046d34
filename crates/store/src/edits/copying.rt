// Bytes put into a list of bytes.
ghost use Rattle.std.specs.Prelude.{◌+◌, ◌≤◌, length};
ghost use Rattle.store.specs.edits.Steps.{Put};

// The bytes of the word go into the list, from place `at` on.
pub fn put(list: &mut [u8], at: usize, word: &[u8])
    requires { at + length word.now ≤ length list.old }
    ensures { Put list.old at word.now list.new }
{
    list[at..at + word.len()].copy_from_slice(word);
}
