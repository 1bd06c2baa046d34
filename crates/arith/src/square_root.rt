// Square root of an f64, correctly rounded: a guess, an exact test of squares that decides, and a
// bisection where it does not.
ghost use Rattle.std.specs.Prelude.{◌≡◌, ◌+◌, ◌*◌, ◌/◌, ◌%◌, ◌^◌, ◌<◌, ◌≤◌, IfSome};
ghost use Rattle.std.specs.Float.{binary64};
ghost use Rattle.arith.specs.roots.Steps.{Significand, NearestHalf, Normalized, Subnormal, Radicand, SqrtIs, SqrtOf};
ghost use Rattle.arith.specs.roots.Roots as roots;

use crate::bits::{INF, T52, T53, T63};
use crate::roots::{Parts, SoughtRoot, Wide, guessed, nearest_of_three};

// m, or 2 * m at an odd exponent
fn radicand(m: u64, e: u64) -> u64
    requires { Significand m }
    ensures { Radicand m e result }
{
    if e % 2 == 1 { 2 * m } else { m }
}

// The root of m * 2^52, rounded.
fn sqrt_significand(m: u64) -> u64
    requires { (2 ^ 52 ≤ m) × (m + 2 ≤ 2 ^ 54) }
    ensures { NearestHalf (m * 2 ^ 54) result }
{
    let root = SoughtRoot {
        z: Wide::widened(m),
        more: false,
    };
    root.bisect(T52 - 1, T53 - 1)
}

// The bits of the root of m * 2^(e - 1024) smallest values, by bisection.
fn sqrt_searched(m: u64, e: u64) -> u64
    requires { Normalized m e }
    ensures { SqrtIs m e result }
{
    let z = radicand(m, e);
    let r = sqrt_significand(z);
    (e / 2 - 1) * T52 + r
}

// The same of x, whose bits are b, if a guess that is tested decides.
fn sqrt_tested(x: f64, b: u64) -> Option<u64>
    requires { (2 ^ 52 ≤ b) × (b < 2047 * 2 ^ 52) }
    ensures { IfSome result (SqrtIs (b % 2 ^ 52 + 2 ^ 52) (b / 2 ^ 52 + 1023)) }
{
    let m = b % T52 + T52;
    let e = b / T52 + 1023;
    let z = radicand(m, e);
    let g = guessed(x, b / 2);
    let r = nearest_of_three(Parts::widened(z), g)?;
    Some((e / 2 - 1) * T52 + r)
}

// The bits of the root of b smallest values.
fn sqrt_subnormal(b: u64) -> u64
    requires { Subnormal b }
    ensures { SqrtOf b result }
{
    // so many places that the highest digit comes to 2^52
    let s = b.leading_zeros() - 11;
    sqrt_searched(b << s, 1024 - u64::from(s))
}

pub fn sqrt(x: f64) -> f64
    ensures { result ≡ roots.sqrt binary64 x }
{
    if x.is_nan() {
        return f64::NAN;
    }
    let b = f64::to_bits(x);
    if b < INF {
        if b >= T52 {
            if let Some(r) = sqrt_tested(x, b) {
                return f64::from_bits(r);
            }
            return f64::from_bits(sqrt_searched(b % T52 + T52, b / T52 + 1023));
        }
        if b > 0 {
            return f64::from_bits(sqrt_subnormal(b));
        }
        return x;
    }
    if b == INF {
        return x;
    }
    if b == T63 {
        return x;
    }
    f64::NAN
}
