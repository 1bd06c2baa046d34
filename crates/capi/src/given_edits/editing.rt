// An edit of a store in the space that the caller lends, its length afterwards in a lent place.
ghost use Rattle.std.specs.Prelude.{◌≡◌, length};
ghost use Rattle.section.specs.profile.Replies.{told};
ghost use Rattle.store.specs.edits.Written.{written};
ghost use Rattle.capi.specs.handing.Interface.{Gives};
ghost use Rattle.capi.specs.given_edits.Editing.{role_of, edit_of, EditsSpace};

use section::Refusal;
use store::{Edit, Place, Role};

// 1 is the setter, any other number the operator.
fn role_of(role: u32) -> Role
    ensures { result ≡ role_of role }
{
    if role == 1 {
        return Role::Setter;
    }
    Role::Operator
}

// The bytes of a list of 40.
fn forty(bytes: &[u8]) -> [u8; 40]
    requires { length bytes.now ≡ 40 }
    ensures { result ≡ bytes.now }
{
    let mut all = [0u8; 40];
    store::put(&mut all, 0, bytes);
    all
}

// Puts the length afterwards into its place, and gives the number of a refusal.
fn give_length(answer: Result<usize, Refusal>, length_after: &mut usize) -> u32
    ensures { Gives (λ n. n) (told answer) result length_after.old length_after.new }
{
    match answer {
        Ok(n) => {
            *length_after = n;
            0
        }
        Err(refusal) => refusal.number(),
    }
}

// Number 12 where the bytes are not 40, before all else.
pub fn edit_given(
    space: &mut [u8],
    size: usize,
    role: u32,
    place: Place,
    bytes: &[u8],
    length_after: &mut usize,
) -> u32
    ensures { let s = space.old in let b = bytes.now in
        EditsSpace (edit_of s size role place b) (written s size place b) result s space.new
        length_after.old length_after.new }
{
    if bytes.len() == 40 {
        let edit = Edit {
            role: role_of(role),
            place,
            bytes: forty(bytes),
        };
        let answer = store::edit_store(space, size, edit);
        return give_length(answer, length_after);
    }
    Refusal::StoreLength.number()
}
