// The version, the square root and the hypotenuse.
ghost use Rattle.std.specs.Prelude.{◌≡◌};
ghost use Rattle.std.specs.Float.{binary64};
ghost use Rattle.arith.specs.roots.Roots as roots;
ghost use Rattle.capi.specs.Version.{version};

#[unsafe(no_mangle)]
pub extern "C" fn jorghipa_version() -> u32
    ensures { result ≡ version 1 14 4 }
{
    capi::jorghipa_version()
}

#[unsafe(no_mangle)]
pub extern "C" fn jorghipa_sqrt(x: f64) -> f64
    ensures { result ≡ roots.sqrt binary64 x }
{
    capi::jorghipa_sqrt(x)
}

#[unsafe(no_mangle)]
pub extern "C" fn jorghipa_hypot(a: f64, b: f64) -> f64
    ensures { result ≡ roots.hypot binary64 a b }
{
    capi::jorghipa_hypot(a, b)
}
