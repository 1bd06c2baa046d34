// The starting distance: samples across the cylinder's width.
ghost use Rattle.std.specs.Prelude.{◌≡◌, ◌≤◌};
ghost use Rattle.section.specs.profile.Vertices.{count};
ghost use Rattle.walk.specs.Walk as walk;
ghost use Rattle.walk.specs.Steps.{sample_at};

use crate::bands::RadialBand;
use crate::pieces::whole_width;
use section::{CollisionHit, Vertex, Witness, nearer_of, signed_distance_2d};

// At z the least, the greatest and the mean radius, against the best so far.
fn sample_at(s: &[f64], b: RadialBand, z: f64, best: CollisionHit) -> CollisionHit
    requires { 3 ≤ count s.now }
    ensures { result ≡ sample_at s.now b z best }
{
    let span = b.span_at_z(z);
    let mean = (span.lo + span.hi) * 0.5;
    let least = nearer_of(best, signed_distance_2d(s, Vertex { z, r: span.lo }));
    let greatest = nearer_of(least, signed_distance_2d(s, Vertex { z, r: span.hi }));
    nearer_of(greatest, signed_distance_2d(s, Vertex { z, r: mean }))
}

// i/n, rounded: at 16 intervals without dividing.
fn fraction(i: usize, n: usize) -> f64
    requires { (n ≤ 64) × (i ≤ n) }
    ensures { result ≡ walk.fraction i n }
{
    if n == 16 {
        return i as f64 * 0.0625;
    }
    i as f64 / n as f64
}

// z of sample i of n + 1.
fn sample_z(b: RadialBand, n: usize, i: usize) -> f64
    requires { (n ≤ 64) × (i ≤ n) }
    ensures { result ≡ walk.sample_z b n i }
{
    let width = whole_width(b);
    width.z0 + (width.z1 - width.z0) * fraction(i, n)
}

// The best of the samples at n + 1 values of z.
pub fn sampled(s: &[f64], b: RadialBand, n: usize) -> CollisionHit
    requires { (3 ≤ count s.now) × (n ≤ 64) }
    ensures { result ≡ walk.sampled s.now b n }
{
    let mut best = CollisionHit {
        distance: arith::infinity(),
        witness: Witness {
            z: b.zc,
            r: 0.0,
            edge: 0,
        },
    };
    for i in 0..n + 1 {
        best = sample_at(s, b, sample_z(b, n, i), best);
    }
    best
}
