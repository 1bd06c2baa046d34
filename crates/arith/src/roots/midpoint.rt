// Which candidate is nearest to a root: whole squares are compared at the midpoints of two
// candidates.
ghost use Rattle.std.specs.Prelude.{◌+◌, ◌^◌, ◌<◌, ◌≤◌, IfSome};
ghost use Rattle.std.specs.Int.{from_bool};
ghost use Rattle.arith.specs.roots.Steps.{whole, total, Significand, NearestOfThree, Tells, RoundsUpAt, RoundsDownAt};
ghost use Rattle.arith.specs.roots.Steps.{RoundsUp, RoundsDown, Between, Rounded};

use super::wide::{Parts, Wide};
use crate::bits::{T53, T54};

// Which of k - 1, k and k + 1 is nearest to half the root of z + f, for every f from 0 up to, and
// not with, 2, if the test decides.
pub fn nearest_of_three(z: Parts, k: u64) -> Option<u64>
    requires { Significand k }
    ensures { IfSome result (NearestOfThree (total z) k) }
{
    let s = Parts::square(2 * k);
    // z - s, from the highest part on: each step must be small for the next one to fit
    let h = (z.h + 0x2000_0000).wrapping_sub(s.h);
    if h >= 0x4000_0000 {
        return None;
    }
    let t = (h * 0x800_0000 + z.m).wrapping_sub(s.m + 0xff_ffff_c000_0000);
    if t >= 0x8000_0000 {
        return None;
    }
    // z - (2 * k)^2 + 12 * k - 10: 8 * k of it to a candidate
    let e = (t * 0x2000_0000 + z.l + 12 * k).wrapping_sub(s.l + 0x800_0000_0000_000a);
    let v = u64::from(e >= 8 * k) + u64::from(e >= 16 * k);
    let rest = e - v * (8 * k);
    if rest < 8 * k - 10 {
        return Some(k + v - 1);
    }
    None
}

// The root of z, or of a bit more than z where `more` says so.
#[derive(Clone, Copy)]
pub struct SoughtRoot {
    pub z: Wide,
    pub more: bool,
}

impl SoughtRoot {
    // Whether it lies above the midpoint m / 2, or at it with k odd.
    fn rounds_up_at(self, k: u64, m: u64) -> bool
        requires { m < 2 ^ 55 }
        ensures { Tells (RoundsUpAt (whole self.z) (from_bool self.more) k m)
            (RoundsDownAt (whole self.z) (from_bool self.more) k m) result }
    {
        let s = Wide::square(m);
        // limb by limb, which is faster than a derived order
        if s.hi != self.z.hi {
            return s.hi < self.z.hi;
        }
        if s.lo != self.z.lo {
            return s.lo < self.z.lo;
        }
        self.more || k % 2 == 1
    }

    // Whether it lies above the midpoint of candidate k and the next, or at it with k odd.
    fn rounds_up(self, k: u64) -> bool
        requires { k < 2 ^ 53 + 2 ^ 52 }
        ensures { Tells (RoundsUp (whole self.z) (from_bool self.more) k)
            (RoundsDown (whole self.z) (from_bool self.more) k) result }
    {
        if k < T53 {
            self.rounds_up_at(k, 2 * k + 1)
        } else {
            self.rounds_up_at(k, 4 * k + 2 - T54)
        }
    }

    // The candidate above lo0 and up to hi0 that it rounds to, by bisection.
    pub fn bisect(self, lo0: u64, hi0: u64) -> u64
        requires { (hi0 ≤ 2 ^ 53 + 2 ^ 52) × Between (whole self.z) (from_bool self.more) lo0 hi0 }
        ensures { Rounded (whole self.z) (from_bool self.more) lo0 hi0 result }
    {
        let mut lo = lo0;
        let mut hi = hi0;
        while lo + 1 < hi {
            let m = lo + (hi - lo) / 2;
            if self.rounds_up(m) {
                lo = m;
            } else {
                hi = m;
            }
        }
        hi
    }
}
