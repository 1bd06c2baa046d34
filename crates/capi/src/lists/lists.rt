// Bodies as C gives them: a kind, 2 a sphere, 3 a box, 4 a cylinder, and seven numbers, of which it takes the first.
ghost use Rattle.std.specs.Prelude.{◌≤◌, ◌+◌, ◌*◌, ◌≡◌, length, take};
ghost use Rattle.section.specs.profile.Numbers.{refused_by};
ghost use Rattle.section.specs.profile.Refusals.{refusal, any_of};
ghost use Rattle.capi.specs.lists.Lists.{other_kind, one_body_tests, lists_tests};
ghost use Rattle.capi.specs.lists.Lists.{sphere_at, box_at, cylinder_at, body_at, bodies_of, front_of};

use arith::Vec3;
use bodies::Body;
use section::{Aabb, Refusal, Sphere};
use walk::Cylinder;

pub fn other_kind(kind: u32) -> bool
    ensures { result ≡ other_kind kind }
{
    if kind < 2 {
        return true;
    }
    4 < kind
}

// Of one body: it has seven numbers; then its kind.
#[tactic(auto, unfolding(section::specs::profile::Refusals::refusal))]
pub fn one_body_refusal(kind: u32, numbers: &[f64]) -> Result<(), Refusal>
    ensures { refused_by result ≡ refusal (one_body_tests kind numbers.now) }
{
    if numbers.len() != 7 {
        return Err(Refusal::OddCount);
    }
    if other_kind(kind) {
        return Err(Refusal::WrongKind);
    }
    Ok(())
}

fn any_other_kind(kinds: &[u32]) -> bool
    ensures { result ≡ any_of other_kind kinds.now }
{
    for kind in kinds {
        if other_kind(*kind) {
            return true;
        }
    }
    false
}

// A body has seven numbers; then the kinds, of at most 64.
pub fn lists_refusal(kinds: &[u32], numbers: &[f64]) -> Result<(), Refusal>
    ensures { refused_by result ≡ refusal (lists_tests kinds.now numbers.now) }
{
    if numbers.len() % 7 != 0 {
        return Err(Refusal::OddCount);
    }
    if numbers.len() / 7 != kinds.len() {
        return Err(Refusal::OddCount);
    }
    if 64 < kinds.len() {
        return Ok(());
    }
    if any_other_kind(kinds) {
        return Err(Refusal::WrongKind);
    }
    Ok(())
}

fn sphere_at(l: &[f64], at: usize) -> Sphere
    requires { at + 7 ≤ length l.now }
    ensures { result ≡ sphere_at l.now at }
{
    let center = Vec3 {
        x: l[at],
        y: l[at + 1],
        z: l[at + 2],
    };
    Sphere {
        center,
        radius: l[at + 3],
    }
}

fn box_at(l: &[f64], at: usize) -> Aabb
    requires { at + 7 ≤ length l.now }
    ensures { result ≡ box_at l.now at }
{
    Aabb {
        z0: l[at],
        z1: l[at + 1],
        r0: l[at + 2],
        r1: l[at + 3],
    }
}

fn cylinder_at(l: &[f64], at: usize) -> Cylinder
    requires { at + 7 ≤ length l.now }
    ensures { result ≡ cylinder_at l.now at }
{
    let a = Vec3 {
        x: l[at],
        y: l[at + 1],
        z: l[at + 2],
    };
    let b = Vec3 {
        x: l[at + 3],
        y: l[at + 4],
        z: l[at + 5],
    };
    Cylinder {
        a,
        b,
        radius: l[at + 6],
    }
}

// The body of this kind whose seven numbers begin there.
pub fn body_at(kind: u32, numbers: &[f64], at: usize) -> Body
    requires { at + 7 ≤ length numbers.now }
    ensures { result ≡ body_at kind numbers.now at }
{
    if kind == 2 {
        return Body::Sphere(sphere_at(numbers, at));
    }
    if kind == 3 {
        return Body::Box(box_at(numbers, at));
    }
    Body::Cylinder(cylinder_at(numbers, at))
}

// How many bodies are read: none of more than 64.
pub fn front_of(count: usize) -> usize
    ensures { result ≡ front_of count }
{
    if 64 < count { 0 } else { count }
}

// The first n bodies, at the front of the array.
pub fn bodies_of(kinds: &[u32], numbers: &[f64], n: usize) -> [Body; 64]
    requires { (n ≤ 64) × (n ≤ length kinds.now) × (length numbers.now ≡ 7 * length kinds.now) }
    ensures { take n result ≡ take n (bodies_of kinds.now numbers.now) }
{
    let none = Aabb {
        z0: 0.0,
        z1: 0.0,
        r0: 0.0,
        r1: 0.0,
    };
    let mut bodies = [Body::Box(none); 64];
    for i in 0..n {
        bodies[i] = body_at(kinds[i], numbers, 7 * i);
    }
    bodies
}
