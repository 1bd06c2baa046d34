// The walk over the pieces of a cylinder across the spindle.
ghost use Rattle.std.specs.Prelude.{◌≡◌, ◌&&◌, ◌<◌, ◌≤◌};
ghost use Rattle.arith.specs.F64.{◌≺◌};
ghost use Rattle.section.specs.profile.Vertices.{count};
ghost use Rattle.section.specs.boxes.Boxes.{box_distance};
ghost use Rattle.walk.specs.Walk as walk;
ghost use Rattle.walk.specs.Steps as steps;
ghost use Rattle.walk.specs.Steps.{WalkableWith};

use crate::bands::RadialBand;
use crate::pieces::{Measured, Part, Piece, Slab, Waiting, cross_at};
use crate::settings::Settings;
use crate::{CountedHit, sampled};
use section::{Aabb, CollisionHit, box_distance, nearer_of};

fn dropped(m: CollisionHit, best: CollisionHit) -> bool
    ensures { result ≡ walk.dropped m best }
{
    m.distance > best.distance + 1e-12
}

fn better(m: Measured, best: CollisionHit) -> CollisionHit
    ensures { result ≡ walk.better m.hit m.variation best }
{
    let hit = m.hit;
    if dropped(hit, best) {
        return best;
    }
    let witness = hit.witness;
    let distance = hit.distance + m.variation;
    nearer_of(best, CollisionHit { distance, witness })
}

fn both_above(tol: f64, variation: f64, width: f64) -> bool
    ensures { result ≡ ((tol ≺ variation) && (tol ≺ width)) }
{
    if variation > tol {
        return width > tol;
    }
    false
}

fn halved(tol: f64, m: Measured, best: CollisionHit, p: Piece) -> bool
    ensures { result ≡ walk.halved tol m.hit m.variation best p }
{
    if dropped(m.hit, best) {
        return false;
    }
    both_above(tol, m.variation, p.z1 - p.z0)
}

// What a walk has so far: the best distance with its witness, the least box distance, how many boxes were measured, and the most
// pieces that waited at any one time.
#[derive(Clone, Copy)]
struct SoFar {
    best: CollisionHit,
    least: f64,
    boxes: usize,
    most: usize,
}

impl SoFar {
    // One piece waits, and no box is measured.
    fn start(best: CollisionHit) -> SoFar
        ensures { result ≡ steps.start best }
    {
        SoFar {
            best,
            least: arith::infinity(),
            boxes: 0,
            most: 1,
        }
    }

    // One box more, after which this many pieces wait.
    fn count(&mut self, m: Measured, waiting: usize)
        requires { self.old.boxes < usize.MAX }
        ensures { self.new ≡ steps.count m waiting self.old }
    {
        self.best = better(m, self.best);
        self.least = arith::min(self.least, m.hit.distance);
        self.boxes += 1;
        self.most = self.most.max(waiting);
    }

    // What is reported of a walk that is cut: the least box distance, with the witness of the best.
    fn cut_off(self) -> CountedHit
        ensures { result ≡ steps.cut_off self }
    {
        let best = self.best;
        let witness = best.witness;
        CountedHit {
            hit: CollisionHit {
                distance: self.least,
                witness,
            },
            boxes: self.boxes,
            waiting: self.most,
            cut: true,
        }
    }

    // What is reported of one that ends.
    fn uncut(self) -> CountedHit
        ensures { result ≡ steps.uncut self }
    {
        CountedHit {
            hit: self.best,
            boxes: self.boxes,
            waiting: self.most,
            cut: false,
        }
    }
}

// A walk at these settings: its tolerance, its most boxes, its number of sample intervals.
fn walk_with(s: &[f64], b: RadialBand, t: Settings) -> CountedHit
    requires { WalkableWith s.now b t }
    ensures { result ≡ walk.walked (walk.walk_with s.now b t) }
{
    let whole = Part::whole(b);
    let mut right = cross_at(b, whole.piece.z1);
    let middle = cross_at(b, b.zc);
    let mut waiting = Waiting::new();
    waiting.push(whole);
    let cap = t.most as usize;
    let mut so_far = SoFar::start(sampled(s, b, t.intervals as usize));
    let mut hint = so_far.best.witness.edge;
    while let Some(part) = waiting.pop() {
        if so_far.boxes == cap {
            return so_far.cut_off();
        }
        let slab = Slab {
            band: b,
            part,
            right,
            middle,
        };
        let m = slab.measure(s, hint);
        if halved(t.tolerance, m, so_far.best, part.piece) {
            waiting.push_halves(b, part);
        } else {
            right = part.left;
        }
        so_far.count(m, waiting.len());
        hint = m.hit.witness.edge;
    }
    so_far.uncut()
}

// One box, nothing waiting, uncut.
pub fn one_box(s: &[f64], x: Aabb) -> CountedHit
    requires { 3 ≤ count s.now }
    ensures { result ≡ walk.one_box (box_distance s.now x) }
{
    CountedHit {
        hit: box_distance(s, x),
        boxes: 1,
        waiting: 0,
        cut: false,
    }
}

// The box of a cylinder across the spindle that is hardly more than a line.
fn thin_box(b: RadialBand) -> Aabb
    ensures { result ≡ walk.thin_box b }
{
    let span = b.span_at_rho(0.0);
    Aabb {
        z0: b.zc,
        z1: b.zc,
        r0: span.lo,
        r1: span.hi,
    }
}

pub fn band_distance(s: &[f64], b: RadialBand, t: Settings) -> CountedHit
    requires { WalkableWith s.now b t }
    ensures { result ≡ walk.band_distance s.now b t }
{
    if b.radius <= 1e-15 {
        return one_box(s, thin_box(b));
    }
    walk_with(s, b, t)
}
