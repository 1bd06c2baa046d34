// Searching the chained records.
ghost use Rattle.std.specs.Prelude.{◌≡◌, ◌≤◌};
ghost use Rattle.store.specs.Chain.{member};
ghost use Rattle.store.specs.edits.Written.{lowest_from};
ghost use Rattle.store.specs.edits.Steps.{Small, Marked};

pub fn holds(order: &[u32], k: u32) -> bool
    ensures { result ≡ member k order.now }
{
    order.contains(&k)
}

// Each record of the chain gets its mark.
fn marks_of(order: &[u32]) -> [bool; 512]
    requires { Small order.now }
    ensures { Marked order.now result }
{
    let mut marks = [false; 512];
    for k in order {
        marks[*k as usize] = true;
    }
    marks
}

// The lowest record that the chain does not hold, count if it holds all.
pub fn lowest(order: &[u32], count: usize) -> usize
    requires { Small order.now × (count ≤ 512) }
    ensures { result ≡ lowest_from order.now count 0 }
{
    let marks = marks_of(order);
    for m in 0..count {
        if !marks[m] {
            return m;
        }
    }
    count
}
