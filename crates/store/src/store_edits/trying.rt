// An edit is carried out on a copy of the space, which is judged, and replaces the space if it is accepted.
ghost use Rattle.std.specs.Prelude.{◌≡◌, cond, ◌+◌, ◌*◌, ◌/◌, ◌<◌, ◌≤◌, length, ltb};
ghost use Rattle.std.proofs.lemmas.List.Edits.{sets};
ghost use Rattle.store.specs.edits.Written as edits_specs;
ghost use Rattle.store.specs.edits.Written.{appended};
ghost use Rattle.store.specs.edits.Steps.{Tried};

use crate::edits::{put, space_answer};
use section::Refusal;

// Accepted, the trial becomes the space.
fn keep(space: &mut [u8], trial: &[u8], size: usize) -> Result<usize, Refusal>
    requires { length space.old ≡ length trial.now }
    ensures { Tried space.old trial.now size result space.new }
{
    space_answer(trial, size)?;
    put(space, 0, trial);
    Ok(size)
}

// The bytes in the place of record k.
pub fn try_replace(
    space: &mut [u8],
    size: usize,
    k: u32,
    bytes: &[u8; 40],
) -> Result<usize, Refusal>
    requires { (length space.old ≡ 20480) × (k < 512) }
    ensures { let s = space.old in
        Tried s (sets s (k * 40) bytes.now) size result space.new }
{
    let mut trial = [0u8; 20480];
    put(&mut trial, 0, space);
    put(&mut trial, k as usize * 40, bytes);
    keep(space, &trial, size)
}

// The 40 bytes with next 0, whatever next they have.
fn ending(bytes: &[u8; 40]) -> [u8; 40]
    ensures { result ≡ edits_specs.ending bytes.now }
{
    let mut new = [0u8; 40];
    new[4..].copy_from_slice(&bytes[4..]);
    new
}

// The bytes, with next 0, in record m, and record t's next leading to it.
pub fn try_add(
    space: &mut [u8],
    size: usize,
    m: usize,
    t: u32,
    bytes: &[u8; 40],
) -> Result<usize, Refusal>
    requires { (length space.old ≡ 20480) × (m < 512) × (t < 512) }
    ensures { let s = space.old in
        Tried s (appended s m t bytes.now) size result space.new }
{
    let mut trial = [0u8; 20480];
    put(&mut trial, 0, space);
    let new = ending(bytes);
    put(&mut trial, m * 40, &new);
    let link = (m as u32).to_le_bytes();
    put(&mut trial, t as usize * 40, &link);
    keep(space, &trial, size)
}

// The store's length with record m in it.
pub fn length_with(n: usize, m: usize) -> usize
    requires { n ≤ 20480 }
    ensures { result ≡ cond (ltb m (n / 40)) n (n + 40) }
{
    if m < n / 40 {
        return n;
    }
    n + 40
}
