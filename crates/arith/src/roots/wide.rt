// Numbers of up to 112 bits, in two limbs of 56 or in three parts that overlap: squares, and sums
// of them.
ghost use Rattle.std.specs.Prelude.{◌≡◌, ◌+◌, ◌*◌, ◌/◌, ◌%◌, ◌^◌, ◌<◌, ◌≤◌};

use crate::bits::T54;

const T28: u64 = 0x1000_0000;

const T56: u64 = 0x100_0000_0000_0000;

// hi * 2^56 + lo
#[derive(Clone, Copy)]
pub struct Wide {
    pub hi: u64,
    pub lo: u64,
    ghost lo_small: { lo < 2 ^ 56 },
}

impl Wide {
    ghost use Rattle.arith.specs.roots.Steps.{whole};

    // c * c
    pub fn square(c: u64) -> Wide
        requires { c < 2 ^ 55 }
        ensures { whole result ≡ c * c }
    {
        let c1 = c / T28;
        let c0 = c % T28;
        let m = 2 * c1 * c0;
        let l = c0 * c0 + m % T28 * T28;
        let h = c1 * c1 + m / T28 + l / T56;
        Wide { hi: h, lo: l % T56 }
    }

    // self / 2^sh, rounded down
    fn shifted(self, sh: u64) -> Wide
        requires { sh ≤ 56 }
        ensures { whole result ≡ whole self / 2 ^ sh }
    {
        let high = self.hi >> sh;
        let mid = (self.hi << (56 - sh)) % T56;
        let low = self.lo >> sh;
        Wide {
            hi: high,
            lo: mid + low,
        }
    }

    fn plus(self, other: Wide) -> Wide
        requires { whole self + whole other < 2 ^ 112 }
        ensures { whole result ≡ whole self + whole other }
    {
        let l = self.lo + other.lo;
        let h = self.hi + other.hi + l / T56;
        Wide { hi: h, lo: l % T56 }
    }

    // a * a + b * b / 4^d, rounded down
    pub fn sum_of_squares(a: u64, b: u64, d: u64) -> Wide
        requires { (a < 2 ^ 54) × (b < 2 ^ 54) × (d < 27) }
        ensures { whole result ≡ a * a + b * b / 2 ^ (2 * d) }
    {
        Wide::square(a).plus(Wide::square(b).shifted(2 * d))
    }

    // m * 2^54
    pub fn widened(m: u64) -> Wide
        requires { m < 2 ^ 54 }
        ensures { whole result ≡ m * 2 ^ 54 }
    {
        Wide {
            hi: m / 4,
            lo: m % 4 * T54,
        }
    }
}

// h * 2^56 + m * 2^29 + l, carries left where they are
#[derive(Clone, Copy)]
pub struct Parts {
    pub h: u64,
    pub m: u64,
    pub l: u64,
    ghost h_small: { h < 2 ^ 54 },
    ghost m_small: { m < 2 ^ 56 },
    ghost l_small: { l < 2 ^ 58 },
}

impl Parts {
    ghost use Rattle.arith.specs.roots.Steps.{AboutParts, PartsOf, total};

    // c * c
    pub fn square(c: u64) -> Parts
        requires { c < 2 ^ 54 }
        ensures { PartsOf (c * c) result }
    {
        let c1 = c / T28;
        let c0 = c % T28;
        let h = c1 * c1;
        let m = c1 * c0;
        let l = c0 * c0;
        Parts { h, m, l }
    }

    // a * a + b * b / 4^d, or 1 less
    pub fn sum_of_squares(a: u64, b: u64, d: u64) -> Parts
        requires { (a < 2 ^ 54) × (b < 2 ^ 54) × (d < 27) }
        ensures { AboutParts (a * a + b * b / 2 ^ (2 * d)) result }
    {
        let top = b >> d;
        let low = below(b, d);
        let p = Parts::square(a);
        let q = Parts::square(top);
        let x = 2 * top * low;
        let l = p.l + q.l + (x >> d);
        let h = p.h + q.h;
        let m = p.m + q.m;
        Parts { h, m, l }
    }

    // m * 2^54
    pub fn widened(m: u64) -> Parts
        requires { m < 2 ^ 54 }
        ensures { PartsOf (m * 2 ^ 54) result }
    {
        Parts {
            h: m / 4,
            m: m % 4 * 0x200_0000,
            l: 0,
        }
    }
}

// the part of b below 2^d
fn below(b: u64, d: u64) -> u64
    requires { (b < 2 ^ 54) × (d < 27) }
    ensures { result ≡ b % 2 ^ d }
{
    b - ((b >> d) << d)
}
