// Least, greatest, clamp, magnitude and finiteness of f64.
ghost use Rattle.std.specs.Prelude.{◌≡◌};
ghost use Rattle.arith.specs.F64.{∞};
ghost use Rattle.arith.specs.Num as num;

pub fn max(a: f64, b: f64) -> f64
    ensures { result ≡ num.max a b }
{
    if a >= b { a } else { b }
}

pub fn min(a: f64, b: f64) -> f64
    ensures { result ≡ num.min a b }
{
    if a <= b { a } else { b }
}

pub fn clamp(x: f64, lo: f64, hi: f64) -> f64
    ensures { result ≡ num.clamp x lo hi }
{
    if x < lo {
        return lo;
    }
    if x > hi {
        return hi;
    }
    x
}

pub fn abs(x: f64) -> f64
    ensures { result ≡ num.abs x }
{
    if x < 0.0 { -x } else { x }
}

pub fn infinity() -> f64
    ensures { result ≡ ∞ }
{
    f64::INFINITY
}

pub fn is_finite(x: f64) -> bool
    ensures { result ≡ num.is_finite x }
{
    // by comparisons: loops over edges take longer with std's own test, x - x == 0.0
    let top = infinity();
    -top < x && x < top
}
