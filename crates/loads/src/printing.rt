// What the program prints: the store's bytes in one line of lower-case hexadecimal, or the line of
// the refusal.
ghost use Rattle.std.specs.Prelude.{◌≡◌, ◌+◌, ◌≤◌, length};
ghost use mathlib.Core.List.{flat_map};
ghost use Rattle.listings.specs.store_listing.Text.{hex};
ghost use Rattle.listings.specs.store_listing.Listing.{Prints};
ghost use Rattle.listings.specs.store_listing.Steps.{Written};
ghost use Rattle.loads.specs.Load.{load_answer};
ghost use Rattle.loads.specs.Printed.{bytes_line, refused_line, load_text, seed_of, input_text};

use super::writer::write_load;
use listings::{put_decimal, put_hex, put_word};
use store::u64_at;

fn put_digits(bytes: &[u8], text: &mut [u8]) -> usize
    requires { length (flat_map (hex 2) bytes.now) ≤ length text.old }
    ensures { Written text.old 0 (flat_map (hex 2) bytes.now) text.new result }
{
    let mut at = 0;
    for byte in bytes {
        at = put_hex(text, at, *byte as u64, 2);
    }
    at
}

fn put_bytes_line(bytes: &[u8], text: &mut [u8]) -> usize
    requires { length (bytes_line bytes.now) ≤ length text.old }
    ensures { Written text.old 0 (bytes_line bytes.now) text.new result }
{
    let a = put_digits(bytes, text);
    put_word(text, a, b"\n")
}

fn put_refused_line(number: u32, text: &mut [u8]) -> usize
    requires { length (refused_line number) ≤ length text.old }
    ensures { Written text.old 0 (refused_line number) text.new result }
{
    let a = put_word(text, 0, b"refused ");
    let b = put_decimal(text, a, number as u64);
    put_word(text, b, b"\n")
}

fn put_answer(seed: u64, vertices: u64, text: &mut [u8; 23121]) -> usize
    ensures { Prints (load_text (load_answer seed vertices)) text.old text.new result }
{
    let mut space = [0u8; 20480];
    match write_load(&mut space, seed, vertices) {
        Ok(n) => put_bytes_line(&space[..n], text),
        Err(refusal) => put_refused_line(refusal.number(), text),
    }
}

// Any other length than 16 counts as seed 0.
fn seed_of(buffer: &[u8], n: usize) -> u64
    ensures { result ≡ seed_of n buffer.now }
{
    if n == 16 {
        return u64_at(buffer, 0);
    }
    0
}

// Puts what the program prints at the front of the text, of an input of n bytes that went into the
// buffer as far as it reaches. No line is longer than the text: that of 256 vertices.
pub fn load_input(buffer: &[u8; 16], n: usize, text: &mut [u8; 23121]) -> usize
    ensures { Prints (input_text n buffer.now) text.old text.new result }
{
    let room: &[u8] = buffer;
    let seed = seed_of(room, n);
    let vertices = u64_at(room, 8);
    put_answer(seed, vertices, text)
}
