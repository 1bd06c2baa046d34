// The fields of a record, put into a lent space.
ghost use Rattle.std.specs.Prelude.{◌+◌, ◌≤◌, length};
ghost use Rattle.store.specs.Kinds.{kind_number};
ghost use Rattle.store.specs.Records.{record_bytes};
ghost use Rattle.store.specs.edits.Steps.{Put};

use store::{Kind, put};

// next, kind, and the bits of the four f64, from place `at` on
pub fn put_record(
    space: &mut [u8],
    at: usize,
    next: u32,
    kind: Kind,
    a: u64,
    b: u64,
    c: u64,
    d: u64,
)
    requires { at + 40 ≤ length space.old }
    ensures { Put space.old at (record_bytes next (kind_number kind) a b c d) space.new }
{
    put(space, at, &next.to_le_bytes());
    put(space, at + 4, &kind.number().to_le_bytes());
    put(space, at + 8, &a.to_le_bytes());
    put(space, at + 16, &b.to_le_bytes());
    put(space, at + 24, &c.to_le_bytes());
    put(space, at + 32, &d.to_le_bytes());
}
