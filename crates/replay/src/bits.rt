// The f64 of a pattern of bits, and the pattern that is printed of an f64.
ghost use Rattle.std.specs.Prelude.{◌≡◌};
ghost use Rattle.std.specs.Float.{binary64};
ghost use Rattle.std.specs.Float.Ieee.{of_bits};
ghost use Rattle.replay.specs.Bits.{printed};

const T63: u64 = 0x8000_0000_0000_0000;

const INF: u64 = 0x7ff0_0000_0000_0000;

const NAN: u64 = 0x7ff8_0000_0000_0000;

// `from_bits` is undefined at a NaN's pattern, so a NaN is made by arithmetic.
pub fn float(pattern: u64) -> f64
    ensures { result ≡ of_bits binary64 pattern }
{
    if pattern % T63 <= INF {
        return f64::from_bits(pattern);
    }
    0.0 / 0.0
}

// One pattern for every NaN, and one for both zeros.
pub fn pattern(x: f64) -> u64
    ensures { result ≡ printed x }
{
    if x == x {
        if x == 0.0 {
            return 0;
        }
        return f64::to_bits(x);
    }
    NAN
}
