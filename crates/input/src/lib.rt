// What a reader gives, read into a lent buffer.
#![tactic(auto)]

ghost use Rattle.std.specs.Prelude.{◌≡◌, ◌+◌, ◌≤◌, ◌<◌, ◌^◌, ℕ, IfOk, OnErr, length, set, take};
ghost use Rattle.std.specs.Io.KnownBytes.{Consumes, IsAtEnd, Keeps};
ghost use Rattle.std.proofs.lemmas.List.Edits.{sets};
ghost use Rattle.input.specs.Input.{ReadsOn, ReadsPiece};

use std::io;
use std::io::Read;

// Past the buffer nothing is kept.
fn keep_byte(buffer: &mut [u8], at: usize, x: u8)
    ensures { buffer.new ≡ set buffer.old at x }
{
    if at < buffer.len() {
        buffer[at] = x;
    }
}

fn keep(buffer: &mut [u8], from: usize, piece: &[u8])
    requires { from + length piece.now < 2 ^ 64 }
    ensures { buffer.new ≡ sets buffer.old from piece.now }
{
    for (i, x) in piece.iter().enumerate() {
        keep_byte(buffer, from + i, *x);
    }
}

// Reads once, `most` bytes at most, to the front of the piece, and says how many came. They are the
// reader's next ones, where those are known: of standard input they are not. None come only at the
// end, and a read that fails takes none.
fn read_once<R: Read>(reader: &mut R, piece: &mut [u8], most: usize) -> io::Result<usize>
    ensures few { IfOk result (λ n. (n ≤ most) × (n ≤ length piece.new)) }
    ensures taken { IfOk result (λ n. Consumes (R.remaining reader.old) (R.remaining reader.new) (take n piece.new)) }
    ensures end { 0 < most → 0 < length piece.old → IfOk result (λ n. n ≡ 0 → IsAtEnd (R.remaining reader.new)) }
    ensures failed { OnErr result (Keeps (R.remaining reader.old) (R.remaining reader.new)) }
{
    let end = most.min(piece.len());
    reader.read(&mut piece[..end])
}

// Keeps what one read brings behind the first `from` bytes, and says how many there are then, at
// most `most`. A read that fails changes nothing.
fn read_piece<R: Read>(
    reader: &mut R,
    buffer: &mut [u8],
    from: usize,
    most: usize,
) -> io::Result<usize>
    requires { from ≤ most }
    ensures piece { IfOk result (λ n. ReadsPiece buffer.old from most buffer.new n
        (R.remaining reader.old) (R.remaining reader.new)) }
    ensures end { from < most → IfOk result (λ n. n ≡ from → IsAtEnd (R.remaining reader.new)) }
    ensures unchanged { OnErr result (buffer.new ≡ buffer.old) }
    ensures failed { OnErr result (Keeps (R.remaining reader.old) (R.remaining reader.new)) }
{
    let mut piece = [0u8; 4096];
    let n = read_once(reader, &mut piece, most - from)?;
    keep(buffer, from, &piece[..n]);
    Ok(from + n)
}

// Reads on behind the first `from` bytes, which stay, until there are `most` or the input ends, and
// says how many there are then. The buffer keeps what it has room for; the rest is only counted.
// Where a read fails, what came before it is kept all the same.
pub fn read_on<R: Read>(
    reader: &mut R,
    buffer: &mut [u8],
    from: usize,
    most: usize,
) -> io::Result<usize>
    ensures ok { IfOk result (λ n. ReadsOn buffer.old from buffer.new n
        (R.remaining reader.old) (R.remaining reader.new)) }
    ensures whole { IfOk result (λ n. n < most → IsAtEnd (R.remaining reader.new)) }
    ensures failed { OnErr result ((n : ℕ) × ReadsOn buffer.old from buffer.new n
        (R.remaining reader.old) (R.remaining reader.new)) }
{
    let mut length = from;
    while length < most {
        let next = read_piece(reader, buffer, length, most)?;
        if next == length {
            return Ok(next);
        }
        length = next;
    }
    Ok(length)
}
