// Lists a store: it is read from standard input to its end, and its listing is written to standard
// output. A read or a write that fails ends the program with its error.
#![tactic(auto)]

ghost use Rattle.std.specs.Prelude.{◌-◌, ◌<◌, ◌^◌, IfSome, OnOk, length};
ghost use Rattle.std.specs.Io.KnownBytes.{Appends};
ghost use Rattle.listings.specs.store_listing.Listing.{listing};

use std::io;
use std::io::{Read, Write};

// Writes the listing of all that the reader has, where that is known. An input that is longer than
// every store is judged by its length. It is read as far as a usize can count, so that the count never
// wraps.
fn list<R: Read, W: Write>(reader: &mut R, writer: &mut W) -> io::Result<()>
    ensures { OnOk result (IfSome (R.remaining reader.old) (λ store. length store < 2 ^ 64 - 1 →
        Appends (W.contents writer.old) (W.contents writer.new) (listing store))) }
{
    let mut buffer = [0u8; 20480];
    let length = input::read_on(reader, &mut buffer, 0, usize::MAX)?;
    let mut text = [0u8; 28923];
    let n = listings::list_input(&buffer, length, &mut text);
    writer.write_all(&text[..n])
}

fn main(rt: HostRuntime) -> io::Result<()> {
    list(&mut rt.reader(), &mut io::writer(&rt))
}
