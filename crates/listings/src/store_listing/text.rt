// Text put into a lent buffer. Each function writes from place `at` on and hands back the place
// behind what it wrote.
ghost use Rattle.std.specs.Prelude.{◌≡◌, cond, [], ◌∷◌, ◌+◌, ◌<◌, ◌≤◌, length};
ghost use Rattle.std.specs.Float.{binary64};
ghost use Rattle.std.specs.Float.Ieee.{eq, to_bits};
ghost use Rattle.arith.specs.F64.{𝟘};
ghost use Rattle.listings.specs.store_listing.Text as text_specs;
ghost use Rattle.listings.specs.store_listing.Steps.{Written};

fn put_byte(text: &mut [u8], at: usize, x: u8) -> usize
    requires { at < length text.old }
    ensures { Written text.old at (x ∷ []) text.new result }
{
    text[at] = x;
    at + 1
}

pub fn put_word(text: &mut [u8], at: usize, word: &[u8]) -> usize
    requires { at + length word.now ≤ length text.old }
    ensures { Written text.old at word.now text.new result }
{
    store::put(text, at, word);
    at + word.len()
}

// `0` to `9`, then `a` to `f`
fn digit(d: u64) -> u8
    requires { d < 16 }
    ensures { result ≡ text_specs.digit d }
{
    if d < 10 {
        return 48 + d as u8;
    }
    87 + d as u8
}

pub fn put_decimal(text: &mut [u8], at: usize, n: u64) -> usize
    requires { at + length (text_specs.decimal n) ≤ length text.old }
    ensures { Written text.old at (text_specs.decimal n) text.new result }
{
    if n < 10 {
        return put_byte(text, at, digit(n));
    }
    let last = put_decimal(text, at, n / 10);
    put_byte(text, last, digit(n % 10))
}

// The last k hexadecimal digits of n.
pub fn put_hex(text: &mut [u8], at: usize, n: u64, k: usize) -> usize
    requires { at + k ≤ length text.old }
    ensures { Written text.old at (text_specs.hex k n) text.new result }
{
    if k == 0 {
        return at;
    }
    let last = put_hex(text, at, n / 16, k - 1);
    put_byte(text, last, digit(n % 16))
}

// A zero is always +0. No distance is NaN; if one were, it would print as the quiet pattern.
fn bits_of(x: f64) -> u64
    ensures { result ≡ to_bits binary64 (cond (eq x 𝟘) 𝟘 x) }
{
    if x == 0.0 {
        return 0;
    }
    if x == x {
        return f64::to_bits(x);
    }
    0x7ff8000000000000
}

pub fn put_bits(text: &mut [u8], at: usize, x: f64) -> usize
    requires { at + 16 ≤ length text.old }
    ensures { Written text.old at (text_specs.bits x) text.new result }
{
    put_hex(text, at, bits_of(x), 16)
}
