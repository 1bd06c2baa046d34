// Asks the library: an arm for each kind of query, which makes the body of the line's numbers, calls
// the library and makes the reply of its answer.
ghost use Rattle.std.specs.Prelude.{◌≡◌, ◌≤◌, length};
ghost use Rattle.replay.specs.Replies.{kept};

use super::bits::pattern;
use super::table::Kind;
use arith::Vec3;
use bodies::Verdict;
use section::{Aabb, CollisionHit, Refusal, Sphere};
use walk::{CountedHit, Cylinder, Settings};

// What every number of a builder's space is before the call.
pub const BLANK: f64 = 100.0;

#[derive(Clone, Copy)]
pub enum Reply {
    Number(f64),
    Hit(CollisionHit),
    Walked(CountedHit),
    Verdict(Verdict),
    // How many numbers a builder keeps, at the front of its space.
    Kept(usize),
    Refused(Refusal),
    // A builder wrote where it has to leave the space as it was.
    Damaged,
    Malformed,
}

fn vector(x: f64, y: f64, z: f64) -> Vec3 {
    Vec3 { x, y, z }
}

fn sphere(v: &[f64; 16]) -> Sphere {
    let center = vector(v[0], v[1], v[2]);
    Sphere {
        center,
        radius: v[3],
    }
}

fn aabb(v: &[f64; 16]) -> Aabb {
    Aabb {
        z0: v[0],
        z1: v[1],
        r0: v[2],
        r1: v[3],
    }
}

fn cylinder(v: &[f64; 16]) -> Cylinder {
    let a = vector(v[0], v[1], v[2]);
    let b = vector(v[3], v[4], v[5]);
    Cylinder { a, b, radius: v[6] }
}

// The whole number whose pattern a number has; what is past a u32 counts as the largest.
fn whole(x: f64) -> u32 {
    pattern(x).min(4294967295) as u32
}

fn settings(v: &[f64; 16]) -> Settings {
    Settings {
        tolerance: v[7],
        most: whole(v[8]),
        intervals: whole(v[9]),
    }
}

fn hit(answer: Result<CollisionHit, Refusal>) -> Reply
    ensures { kept result ≡ 0 }
{
    match answer {
        Ok(hit) => Reply::Hit(hit),
        Err(refusal) => Reply::Refused(refusal),
    }
}

fn walked(answer: Result<CountedHit, Refusal>) -> Reply
    ensures { kept result ≡ 0 }
{
    match answer {
        Ok(walked) => Reply::Walked(walked),
        Err(refusal) => Reply::Refused(refusal),
    }
}

fn judged(verdict: Result<Verdict, Refusal>) -> Reply
    ensures { kept result ≡ 0 }
{
    match verdict {
        Ok(verdict) => Reply::Verdict(verdict),
        Err(refusal) => Reply::Refused(refusal),
    }
}

// Whether a number is no longer blank.
fn any_written(rest: &[f64]) -> bool {
    rest.iter().any(|x| *x != BLANK)
}

// A builder's space has to be blank behind what it keeps, and all of it where it refuses; the part
// that it hands back has what it keeps.
fn built(answer: Result<usize, Refusal>, part: usize, space: &[f64]) -> Reply
    ensures { kept result ≤ length space.now }
{
    match answer {
        Ok(n) => {
            if space.len() < n {
                return Reply::Damaged;
            }
            if part != n {
                return Reply::Damaged;
            }
            if any_written(&space[n..]) {
                return Reply::Damaged;
            }
            Reply::Kept(n)
        }
        Err(refusal) => {
            if part != 0 {
                return Reply::Damaged;
            }
            if any_written(space) {
                return Reply::Damaged;
            }
            Reply::Refused(refusal)
        }
    }
}

// The reply to a query: s and t are its lists, v the numbers beside them, and space is a builder's,
// still blank.
pub fn ask(kind: Kind, s: &[f64], t: &[f64], v: &[f64; 16], space: &mut [f64]) -> Reply
    ensures { kept result ≤ length space.new }
{
    match kind {
        Kind::Root => Reply::Number(arith::sqrt(v[0])),
        Kind::Hypot => Reply::Number(arith::hypot(v[0], v[1])),
        Kind::Point => hit(section::signed_distance(s, vector(v[0], v[1], v[2]))),
        Kind::Sphere => hit(section::query_sphere(s, sphere(v))),
        Kind::Box => hit(section::aabb_polygon_distance(v[0], v[1], v[2], v[3], s)),
        Kind::Convex => hit(section::convex_polygon_distance(s, t)),
        Kind::Cylinder => walked(walk::query_cylinder(s, cylinder(v), walk::finest())),
        Kind::Walk => walked(walk::query_cylinder(s, cylinder(v), settings(v))),
        Kind::Section => {
            let part = section::try_from_section(s, space).len();
            built(section::write_section(s, space), part, space)
        }
        Kind::Polygon => {
            let part = section::try_from_polygon(s, space).len();
            built(section::write_polygon(s, space), part, space)
        }
        Kind::VerdictSphere => judged(bodies::verdict_sphere(s, sphere(v), v[4])),
        Kind::VerdictBox => judged(bodies::verdict_box(s, aabb(v), v[4])),
        Kind::VerdictConvex => judged(bodies::verdict_convex(t, s, v[0])),
        Kind::VerdictCylinder => judged(bodies::verdict_cylinder(s, cylinder(v), v[7])),
    }
}
