// The records of a store and the numbers in their bytes, little-endian.
ghost use Rattle.std.specs.Prelude.{◌≡◌, ◌<◌, ◌^◌, get_or};
ghost use Rattle.std.specs.Float.{binary64};
ghost use Rattle.std.specs.Float.Ieee.{of_bits};
ghost use Rattle.store.specs.Bytes.{little_endian, u32_at};
ghost use Rattle.store.specs.Records.{next, kind, number};

// 0 past the end
fn byte_at(b: &[u8], i: usize) -> u8
    ensures { result ≡ get_or b.now i 0 }
{
    b.get(i).copied().unwrap_or(0)
}

fn u32_at(b: &[u8], i: usize) -> u32
    requires { i < 2 ^ 40 }
    ensures { result ≡ u32_at b.now i }
{
    u32::from_le_bytes([
        byte_at(b, i),
        byte_at(b, i + 1),
        byte_at(b, i + 2),
        byte_at(b, i + 3),
    ])
}

pub fn u64_at(b: &[u8], i: usize) -> u64
    requires { i < 2 ^ 39 }
    ensures { result ≡ little_endian 8 b.now i }
{
    let low = u32_at(b, i);
    let high = u32_at(b, i + 4);
    u64::from(low) + 4294967296 * u64::from(high)
}

// Every NaN pattern is NaN.
fn float_of(bits: u64) -> f64
    ensures { result ≡ of_bits binary64 bits }
{
    if bits % 0x8000000000000000 > 0x7ff0000000000000 {
        return 0.0 / 0.0;
    }
    f64::from_bits(bits)
}

pub fn next_of(store: &[u8], k: u32) -> u32
    ensures { result ≡ next store.now k }
{
    u32_at(store, k as usize * 40)
}

pub fn kind_of(store: &[u8], k: u32) -> u32
    ensures { result ≡ kind store.now k }
{
    u32_at(store, k as usize * 40 + 4)
}

// One of the four f64 of a record.
pub fn number_of(store: &[u8], k: u32, i: usize) -> f64
    requires { i < 4 }
    ensures { result ≡ number store.now k i }
{
    float_of(u64_at(store, k as usize * 40 + 8 + i * 8))
}
