// The kinds of the chained records, and number 14.
ghost use Rattle.std.specs.Prelude.{◌≡◌, eqb};
ghost use Rattle.store.specs.Answers.{told};
ghost use Rattle.store.specs.Kinds.{kind_number, right_kind, kinds_answer};
ghost use Rattle.store.specs.Records.{kind};

use super::answers::RefusedStore;
use super::bytes::kind_of;
use section::Refusal;

// What a record is: record 0, where the chain starts, or a part of the section, or a body.
#[derive(Clone, Copy, Debug, PartialEq, Eq)]
pub enum Kind {
    Start,
    Vertex,
    Sphere,
    Box,
}

impl Kind {
    // The number that stands for it in a record.
    pub fn number(self) -> u32
        ensures { result ≡ kind_number self }
    {
        match self {
            Kind::Start => 0,
            Kind::Vertex => 1,
            Kind::Sphere => 2,
            Kind::Box => 3,
        }
    }
}

pub fn is_kind(store: &[u8], k: u32, wanted: Kind) -> bool
    ensures { result ≡ eqb (kind store.now k) (kind_number wanted) }
{
    kind_of(store, k) == wanted.number()
}

#[tactic(auto, unfolding(crate::specs::Kinds::right_kind))]
fn right_kind(store: &[u8], k: u32) -> bool
    ensures { result ≡ right_kind store.now k }
{
    let kind = kind_of(store, k);
    if k == 0 {
        return kind == Kind::Start.number();
    }
    kind == Kind::Vertex.number() || kind == Kind::Sphere.number() || kind == Kind::Box.number()
}

// The first record of a wrong kind, in chain order.
pub fn kinds_answer(store: &[u8], order: &[u32]) -> Result<(), RefusedStore>
    ensures { told result ≡ kinds_answer store.now order.now }
{
    for k in order {
        if !right_kind(store, *k) {
            let refusal = Refusal::WrongKind;
            return Err(RefusedStore { refusal, at: *k });
        }
    }
    Ok(())
}
