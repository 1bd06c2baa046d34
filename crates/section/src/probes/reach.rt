// Which edges cross the line from no probe along z: both ends are at most the least of the probes' radii, or
// both are above the greatest.
ghost use Rattle.std.specs.Prelude.{◌≡◌, true};
ghost use Rattle.section.specs.probes.Radii.{Reaches, Spans, Unparted};

use super::shapes::Probes;
use crate::profile::Vertex;
use crate::ranges::Range;

fn between(lo: f64, x: f64, hi: f64) -> bool
    ensures { result ≡ true → Spans lo x hi }
{
    lo <= x && x <= hi
}

// The least and the greatest radius of the probes, or -infinity and +infinity where they are not in order.
pub fn reach_of(at: Probes<Vertex>) -> Range
    ensures { Reaches at result }
{
    let lo = at.c00.r;
    let hi = at.c11.r;
    if between(lo, at.centre.r, hi) && between(lo, at.c10.r, hi) && between(lo, at.c01.r, hi) {
        return Range { lo, hi };
    }
    let top = arith::infinity();
    Range { lo: -top, hi: top }
}

// No probe's radius parts the two.
pub fn unparted(reach: Range, a: f64, b: f64) -> bool
    ensures { result ≡ true → Unparted reach.lo reach.hi a b }
{
    let lo = reach.lo;
    let hi = reach.hi;
    if a <= lo {
        return b <= lo;
    }
    if a > hi {
        return b > hi;
    }
    false
}
