// A guess at a root, in f64. Nothing is claimed of it but its range: whoever uses it tests it.
ghost use Rattle.std.specs.Prelude.{◌^◌, ◌<◌};
ghost use Rattle.arith.specs.roots.Steps.{Significand};

use crate::bits::T52;

// About the root of n, from n and half its bits, by three steps of Newton's iteration for 1 / root.
fn guess(n: f64, half: u64) -> f64
    requires { half < 2 ^ 62 }
{
    let h = 0.5 * n;
    let y0 = f64::from_bits(0x5fe6_ed21_02dc_bfda - half);
    let y1 = 1.50087895511633457 * y0 - (h * y0) * (y0 * y0);
    let y2 = 1.50000057967625766 * y1 - (h * y1) * (y1 * y1);
    let g = n * y2;
    let e = 1.0 - g * y2;
    g + (g * e) * (0.5 + 0.375 * e)
}

// The significand of a guess at the root of n, from n and half its bits.
pub fn guessed(n: f64, half: u64) -> u64
    requires { half < 2 ^ 62 }
    ensures { Significand result }
{
    let g = guess(n, half);
    if g.is_nan() {
        T52
    } else {
        f64::to_bits(g) % T52 + T52
    }
}
