// The chain of records from record 0 on, and number 13.
ghost use Rattle.std.specs.Prelude.{◌≡◌, false, ◌||◌, ◌<◌, ◌≤◌, length, get_or, leb};
ghost use Rattle.store.specs.Chain.{chain, in_order};
ghost use Rattle.store.specs.Store.{links_answer};
ghost use Rattle.store.specs.Steps.{ChainRoom, Visits, Fills};

use super::answers::RefusedStore;
use super::bytes::next_of;
use section::Refusal;

// Marks record k and reads its next.
fn visit(store: &[u8], marks: &mut [bool], k: u32) -> u32
    requires { (length marks.old ≡ 512) × (k < 512) }
    ensures { Visits store.now k marks.old marks.new result }
{
    marks[k as usize] = true;
    next_of(store, k)
}

// A next is bad past the end or at a marked record.
fn is_bad(marks: &[bool], count: usize, next: u32) -> bool
    requires { (length marks.now ≡ 512) × (count ≤ 512) }
    ensures { result ≡ (leb count next || get_or marks.now next false) }
{
    let place = next as usize;
    if count <= place {
        return true;
    }
    marks[place]
}

// Puts the chained records into order, one behind the other.
pub fn follow_chain(store: &[u8], order: &mut [u32]) -> Result<usize, RefusedStore>
    requires { ChainRoom store.now order.old }
    ensures { let c = chain store.now in Fills (links_answer c) (in_order c) result order.new }
{
    let count = store.len() / 40;
    let mut marks = [false; 512];
    let mut k: u32 = 0;
    for n in 0..count {
        order[n] = k;
        let next = visit(store, &mut marks, k);
        if next == 0 {
            return Ok(n + 1);
        }
        if is_bad(&marks, count, next) {
            break;
        }
        k = next;
    }
    Err(RefusedStore {
        refusal: Refusal::BadLink,
        at: k,
    })
}
