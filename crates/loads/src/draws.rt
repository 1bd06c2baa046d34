// The states that follow a seed, and the coordinate that each gives.
ghost use Rattle.std.specs.Prelude.{◌≡◌};
ghost use Rattle.std.specs.Float.{binary64};
ghost use Rattle.std.specs.Float.Ieee.{to_bits};
ghost use Rattle.arith.specs.Num.{abs};
ghost use Rattle.loads.specs.Xorshift as xorshift_specs;
ghost use Rattle.loads.specs.Load as load_specs;

// One step: shifts drop high bits.
pub fn xorshift(state: u64) -> u64
    ensures { result ≡ xorshift_specs.xorshift state }
{
    let a = state ^ (state << 13);
    let b = a ^ (a >> 7);
    b ^ (b << 17)
}

fn coordinate(state: u64) -> f64
    ensures { result ≡ load_specs.coordinate state }
{
    ((state % 2097153) as f64 - 1048576.0) / 64.0
}

pub fn coordinate_bits(state: u64) -> u64
    ensures { result ≡ to_bits binary64 (load_specs.coordinate state) }
{
    f64::to_bits(coordinate(state))
}

pub fn radius_bits(state: u64) -> u64
    ensures { result ≡ to_bits binary64 (abs (load_specs.coordinate state)) }
{
    let x = coordinate(state);
    let y = arith::abs(x);
    f64::to_bits(y)
}
