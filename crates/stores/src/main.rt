// Lists many stores: standard input holds one after another, each behind its length in bytes, a
// u32, little-endian; for each, standard output gets what the listing program writes for it. A
// store that the input cuts short is what there is of it. A read or a write that fails ends the
// program with its error.
#![tactic(auto)]

ghost use Rattle.std.specs.Prelude.{◌≡◌};
ghost use Rattle.store.specs.Bytes.{u32_at};

use std::io;
use std::io::{Read, Write};

fn length_of(head: &[u8; 4]) -> usize
    ensures { result ≡ u32_at head.now 0 }
{
    u32::from_le_bytes(*head) as usize
}

fn write_listing<W: Write>(writer: &mut W, buffer: &[u8; 20480], n: usize) -> io::Result<()> {
    let mut text = [0u8; 28923];
    let bytes = listings::list_input(buffer, n, &mut text);
    writer.write_all(&text[..bytes])
}

// Lists the next store; false where there is none.
fn list_next<R: Read, W: Write>(reader: &mut R, writer: &mut W) -> io::Result<bool> {
    let mut head = [0u8; 4];
    if input::read_on(reader, &mut head, 0, 4)? < 4 {
        return Ok(false);
    }
    let mut buffer = [0u8; 20480];
    let n = input::read_on(reader, &mut buffer, 0, length_of(&head))?;
    write_listing(writer, &buffer, n)?;
    Ok(true)
}

// A proved loop has to end, and nothing says that the input does: it takes no more turns than a
// number that no run uses up.
fn list_all<R: Read, W: Write>(reader: &mut R, writer: &mut W) -> io::Result<()> {
    for _ in 0..u64::MAX {
        if !list_next(reader, writer)? {
            return Ok(());
        }
    }
    Ok(())
}

fn main(rt: HostRuntime) -> io::Result<()> {
    list_all(&mut rt.reader(), &mut io::writer(&rt))
}
