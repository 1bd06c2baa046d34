// Prints a test load: seed and vertex count are read from standard input, two little-endian u64, and
// the store's bytes are written to standard output in one line of hexadecimal, or the refusal. A read
// or a write that fails ends the program with its error.
#![tactic(auto)]

ghost use Rattle.std.specs.Prelude.{◌-◌, ◌<◌, ◌^◌, IfSome, OnOk, length};
ghost use Rattle.std.specs.Io.KnownBytes.{Appends};
ghost use Rattle.loads.specs.Printed.{printed};

use std::io;
use std::io::{Read, Write};

// Writes what is printed of all that the reader has, where that is known. Any other length than 16
// counts as seed 0. The input is read as far as a usize can count, so that the count never wraps.
fn print_load<R: Read, W: Write>(reader: &mut R, writer: &mut W) -> io::Result<()>
    ensures { OnOk result (IfSome (R.remaining reader.old) (λ seed. length seed < 2 ^ 64 - 1 →
        Appends (W.contents writer.old) (W.contents writer.new) (printed seed))) }
{
    let mut buffer = [0u8; 16];
    let length = input::read_on(reader, &mut buffer, 0, usize::MAX)?;
    let mut text = [0u8; 23121];
    let n = loads::load_input(&buffer, length, &mut text);
    writer.write_all(&text[..n])
}

fn main(rt: HostRuntime) -> io::Result<()> {
    print_load(&mut rt.reader(), &mut io::writer(&rt))
}
