// Hypotenuse of two f64, correctly rounded: a guess, an exact test of squares that decides, and a
// bisection where it does not. Bits are those of a value with no sign.
ghost use Rattle.std.specs.Prelude.{◌≡◌, ◌+◌, ◌-◌, ◌*◌, ◌/◌, ◌^◌, ◌<◌, ◌≤◌, IfSome};
ghost use Rattle.std.specs.Float.{binary64};
ghost use Rattle.std.specs.Float as Float;
ghost use Rattle.std.specs.Int.{from_bool};
ghost use Rattle.arith.specs.roots.Steps.{FiniteHypotIs, HypotIs, NearestHalf, Operands};
ghost use Rattle.arith.specs.roots.Steps.{Rounded, Scaled, Significand, Sticky};
ghost use Rattle.arith.specs.roots.Roots as roots;

use crate::bits::{INF, T52, T53, T63};
use crate::roots::{Parts, SoughtRoot, Wide, guessed, nearest_of_three};

// The exponent of the bits p: they stand for a multiple of 2^exponent smallest values.
fn exponent(p: u64) -> u64
    ensures { result ≡ p / 2 ^ 52 - 1 }
{
    (p / T52).saturating_sub(1)
}

// Whether (2 * m)^2 / 4^d has a rest.
fn sticky(m: u64, d: u64) -> bool
    requires { (m < 2 ^ 53) × (d < 27) }
    ensures { Sticky m d result }
{
    let q = Wide::square(2 * m);
    let low = q.lo >> (2 * d);
    low << (2 * d) != q.lo
}

// The rounded root of mb^2 + ms^2 / 4^d, as a candidate's index; t says whether (2 * ms)^2 / 4^d has
// a rest.
fn hypot_significand(mb: u64, ms: u64, d: u64, t: bool) -> u64
    requires { (0 < mb) × (mb < 2 ^ 53) × (ms < 2 ^ 53) × (d < 27) × (ms ≤ mb * 2 ^ d) }
    ensures { let z = (2 * mb) * (2 * mb) + (2 * ms) * (2 * ms) / 2 ^ (2 * d) in
        Rounded z (from_bool t) (mb - 1) (mb + 2 ^ 52) result }
{
    let z = Wide::sum_of_squares(2 * mb, 2 * ms, d);
    SoughtRoot { z, more: t }.bisect(mb - 1, mb + T52)
}

// The rounded half of the root of a^2 + b^2 / 4^d, from any guess g, if that decides.
fn nearest_half(a: u64, b: u64, d: u64, g: u64) -> Option<u64>
    requires { (a < 2 ^ 54) × (b < 2 ^ 54) × (d < 27) × Significand g }
    ensures { IfSome result (NearestHalf (a * a + b * b / 2 ^ (2 * d))) }
{
    nearest_of_three(Parts::sum_of_squares(a, b, d), g)
}

// The bits of the hypotenuse of two finite values, by bisection.
fn hypot_searched(big: u64, small: u64) -> u64
    requires { Operands 0 2047 big small }
    ensures { HypotIs big small result }
{
    let eb = exponent(big);
    let es = exponent(small);
    let d = eb - es;
    if d >= 27 {
        return big;
    }
    if big == 0 {
        return 0;
    }
    let mb = big - eb * T52;
    let ms = small - es * T52;
    let t = sticky(ms, d);
    let s = hypot_significand(mb, ms, d, t);
    (eb * T52 + s).min(INF)
}

// m * 2^s: m, or 2 * m where the root lies in big's own binade
fn scaled(m: u64, s: u64) -> u64
    requires { (m < 2 ^ 53) × (s < 2) }
    ensures { Scaled m (1 - s) result }
{
    m << s
}

// The same of two normal values, if a guess that is tested decides, n being about the sum of their
// squares and nb its bits.
fn hypot_tested(n: f64, nb: u64, big: u64, small: u64) -> Option<u64>
    requires { (nb < 2 ^ 63) × Operands (2 ^ 52) 2000 big small }
    ensures { IfSome result (HypotIs big small) }
{
    let eb = big / T52;
    let d = eb - small / T52;
    if d > 26 {
        return Some(big);
    }
    // the exponent that the root is likely to have, and how far it is below the one above big's
    let er = (nb / 2 + 0x1ff8_0000_0000_0000) / T52;
    let s = (eb + 1).wrapping_sub(er);
    if s >= 2 {
        return None;
    }
    let aa = scaled(big % T52 + T52, s);
    let bb = scaled(small % T52 + T52, s);
    let g = guessed(n, nb / 2);
    let r = nearest_half(aa, bb, d, g)?;
    if r > T52 && r <= T53 {
        return Some((er - 1) * T52 + r);
    }
    None
}

// The bits of the hypotenuse of two finite values.
fn hypot_bits(a: u64, b: u64) -> u64
    requires { (a < 2047 * 2 ^ 52) × (b < 2047 * 2 ^ 52) }
    ensures { HypotIs a b result }
{
    hypot_searched(a.max(b), a.min(b))
}

// By comparisons: std's own test takes infinity from infinity, which raises the flag INVALID.
fn is_infinite(x: f64) -> bool
    ensures { result ≡ Float.float_is_infinite x }
{
    x == f64::INFINITY || x == f64::NEG_INFINITY
}

// The hypotenuse of any two values, compiled apart from the quick way, so that it takes no registers
// there.
#[inline(never)]
fn hypot_any(a: f64, b: f64) -> f64
    ensures { result ≡ roots.hypot binary64 a b }
{
    if is_infinite(a) || is_infinite(b) {
        return f64::INFINITY;
    }
    if a.is_nan() || b.is_nan() {
        return f64::NAN;
    }
    f64::from_bits(hypot_bits(f64::to_bits(a) % T63, f64::to_bits(b) % T63))
}

// The bits of the hypotenuse of two values of middling size, or of one and next to nothing, if the
// quick way decides, n being about the sum of their squares and nb its bits.
fn hypot_quick(n: f64, nb: u64, a: u64, b: u64) -> Option<u64>
    requires { nb < 2 ^ 63 }
    ensures { IfSome result (FiniteHypotIs a b) }
{
    let big = a.max(b);
    let small = a.min(b);
    if big < 2000 * T52 {
        if small >= T52 {
            return hypot_tested(n, nb, big, small);
        }
        if big >= 28 * T52 {
            return Some(big);
        }
    }
    None
}

pub fn hypot(a: f64, b: f64) -> f64
    ensures { result ≡ roots.hypot binary64 a b }
{
    let n = a * a + b * b;
    if !n.is_nan() {
        let nb = f64::to_bits(n) % T63;
        if let Some(r) = hypot_quick(n, nb, f64::to_bits(a) % T63, f64::to_bits(b) % T63) {
            return f64::from_bits(r);
        }
    }
    hypot_any(a, b)
}
