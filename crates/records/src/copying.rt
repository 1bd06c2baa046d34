// Vertex records as numbers, z and radius in turn.
ghost use Rattle.std.specs.Prelude.{◌≡◌, ◌*◌, ◌<◌, ◌≤◌, IfErr, IfOk, length, take};
ghost use Rattle.section.specs.declared.shapes.Refusal.TheVariants.{TooManyVertices};
ghost use Rattle.records.specs.Flattened.{flattened};
ghost use Rattle.records.specs.Steps.{stored};

use section::{Refusal, Vertex};

// Stores vertex i.
fn put(items: &mut [f64; 512], i: usize, v: Vertex)
    requires { i < 256 }
    ensures { items.new ≡ stored i v items.old }
{
    items[2 * i] = v.z;
    items[2 * i + 1] = v.r;
}

// Copies the vertices to the front of the array, which has room for 256, and says how many numbers they
// have.
pub fn flatten(section: &[Vertex], items: &mut [f64; 512]) -> Result<usize, Refusal>
    ensures front { IfOk result (λ n. (n ≤ 512) × (take n items.new ≡ flattened section.now)) }
    ensures many { IfErr result (λ e. (e ≡ TooManyVertices) × (256 < length section.now)) }
{
    let n = section.len();
    if n > 256 {
        return Err(Refusal::TooManyVertices);
    }
    for i in 0..n {
        put(items, i, section[i]);
    }
    Ok(2 * n)
}
