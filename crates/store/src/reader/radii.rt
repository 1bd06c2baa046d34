// The radii of the chained vertices, and number 6.
ghost use Rattle.std.specs.Prelude.{◌≡◌};
ghost use Rattle.store.specs.Answers.{told};
ghost use Rattle.store.specs.Radii.{below_axis, radii_answer};

use crate::{Kind, RefusedStore, is_kind, number_of};
use section::Refusal;

// A vertex with a radius below -1e-9.
fn below_axis(store: &[u8], k: u32) -> bool
    ensures { result ≡ below_axis store.now k }
{
    is_kind(store, k, Kind::Vertex) && number_of(store, k, 1) < -1e-9
}

// The first such record, in chain order.
pub fn radii_answer(store: &[u8], order: &[u32]) -> Result<(), RefusedStore>
    ensures { told result ≡ radii_answer store.now order.now }
{
    for k in order {
        if below_axis(store, *k) {
            let refusal = Refusal::RadiusBelowAxis;
            return Err(RefusedStore { refusal, at: *k });
        }
    }
    Ok(())
}
