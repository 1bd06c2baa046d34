// Why a store is turned down.
ghost use Rattle.std.specs.Prelude.{◌≡◌};

use section::Refusal;

// The refusal, and the record K that `refused N at K` names; 0 where no record is to blame.
#[derive(Clone, Copy, Debug, PartialEq, Eq)]
pub struct RefusedStore {
    pub refusal: Refusal,
    pub at: u32,
}

impl From<Refusal> for RefusedStore {
    ghost from_gives = { λ e refused. refused ≡ record { refusal = e; at = 0 } };

    fn from(refusal: Refusal) -> RefusedStore {
        RefusedStore { refusal, at: 0 }
    }
}

impl From<RefusedStore> for Refusal {
    ghost from_gives = { λ e refusal. refusal ≡ e.refusal };

    fn from(refused: RefusedStore) -> Refusal {
        refused.refusal
    }
}
