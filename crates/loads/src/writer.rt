// Writing a load: 20 and 21, then record 0, the vertices, the spheres.
ghost use Rattle.std.specs.Prelude.{◌≡◌, ◌≤◌};
ghost use Rattle.section.specs.profile.Numbers.{refused_by};
ghost use Rattle.section.specs.profile.Refusals.{refusal};
ghost use Rattle.loads.specs.Load.{load_tests, load_answer, LoadWritten};
ghost use Rattle.loads.specs.Load as load_specs;
ghost use Rattle.listings.specs.store_listing.Listing.{Prints};

use super::fields::put_record;
use super::runs::{put_spheres, put_vertices};
use section::Refusal;
use store::Kind;

#[tactic(auto, unfolding(section::specs::profile::Refusals::refusal))]
fn load_refusal(seed: u64, vertices: u64) -> Result<(), Refusal>
    ensures { refused_by result ≡ refusal (load_tests seed vertices) }
{
    if seed == 0 {
        return Err(Refusal::BadSeed);
    }
    if vertices < 3 {
        return Err(Refusal::BadLoad);
    }
    if vertices <= 256 {
        return Ok(());
    }
    Err(Refusal::BadLoad)
}

// How many bytes the store of n vertices has, at the front of the space.
fn put_load(space: &mut [u8; 20480], seed: u64, n: usize) -> usize
    requires { n ≤ 256 }
    ensures { Prints (load_specs.load seed n) space.old space.new result }
{
    put_record(space, 0, 1, Kind::Start, 0, 0, 0, 0);
    let state = put_vertices(space, seed, n);
    put_spheres(space, state, n);
    n * 40 + 1320
}

// Puts the load of a seed and a vertex count at the front of the space, which holds the largest
// store, and says how many bytes it has; refused, the space stays as it was.
pub fn write_load(space: &mut [u8; 20480], seed: u64, vertices: u64) -> Result<usize, Refusal>
    ensures { LoadWritten (load_answer seed vertices) space.old result space.new }
{
    load_refusal(seed, vertices)?;
    Ok(put_load(space, seed, vertices as usize))
}
