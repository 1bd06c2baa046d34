// The winner of a pair of sections.
use walk::CountedHit;

// The section that won, with what its own query gives.
#[derive(Clone, Copy)]
pub enum Won {
    Chuck(CountedHit),
    Work(CountedHit),
}
