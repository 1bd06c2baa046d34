// The version, the square root and the hypotenuse.
ghost use Rattle.std.specs.Prelude.{◌≡◌};
ghost use Rattle.std.specs.Float.{binary64};
ghost use Rattle.arith.specs.roots.Roots as roots;
ghost use Rattle.capi.specs.Version.{version};

pub fn jorghipa_version() -> u32
    ensures { result ≡ version 1 14 4 }
{
    11404
}

pub fn jorghipa_sqrt(x: f64) -> f64
    ensures { result ≡ roots.sqrt binary64 x }
{
    arith::sqrt(x)
}

pub fn jorghipa_hypot(a: f64, b: f64) -> f64
    ensures { result ≡ roots.hypot binary64 a b }
{
    arith::hypot(a, b)
}
