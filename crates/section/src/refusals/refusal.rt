// What is turned down: a call's tests in their order, and the first that is true.
ghost use Rattle.std.specs.Prelude.{◌≡◌, Bool, [], ◌∷◌, ◌++◌};
ghost use Rattle.section.specs.profile.Numbers.{refused_by};
ghost use Rattle.section.specs.profile.Refusals as refusals;
ghost use Rattle.section.specs.profile.Refusals.{refusal, any_of};
ghost use Rattle.section.specs.profile.Steps.{beyond_limit, or_else, WithSettings};

use super::fine::numbers_fine;
use crate::profile::{Aabb, Sphere};
use crate::{Outcome, Refusal};
use arith::Vec3;

// Some number passes the test.
fn any_number<F: Fn(f64) -> bool>(l: &[f64], test: F) -> bool
    requires { F.IsAlwaysCallable test }
    ensures { (t : _ → Bool) → ((x r : _) → F.post test x r → r ≡ t x) → result ≡ any_of t l.now }
{
    for x in l {
        if test(*x) {
            return true;
        }
    }
    false
}

fn any_not_finite(l: &[f64]) -> bool
    ensures { result ≡ any_of refusals.not_finite l.now }
{
    any_number(l, |x| !arith::is_finite(x))
}

pub fn any_beyond_limit(l: &[f64]) -> bool
    ensures { result ≡ any_of beyond_limit l.now }
{
    any_number(l, |x| !(arith::abs(x) <= 1048576.0))
}

// This and the next differ in the test alone; one over both would hand a closure on thrice.
fn not_finite_in(a: &[f64], b: &[f64], c: &[f64]) -> bool
    ensures { result ≡ any_of refusals.not_finite (a.now ++ (b.now ++ c.now)) }
{
    if any_not_finite(a) {
        return true;
    }
    if any_not_finite(b) {
        return true;
    }
    any_not_finite(c)
}

fn beyond_limit_in(a: &[f64], b: &[f64], c: &[f64]) -> bool
    ensures { result ≡ any_of beyond_limit (a.now ++ (b.now ++ c.now)) }
{
    if any_beyond_limit(a) {
        return true;
    }
    if any_beyond_limit(b) {
        return true;
    }
    any_beyond_limit(c)
}

// Numbers 4 and 5 over three lists.
fn numbers_refusal(a: &[f64], b: &[f64], c: &[f64]) -> Result<(), Refusal>
    ensures { refused_by result ≡ refusal (refusals.number_tests (a.now ++ (b.now ++ c.now))) }
{
    if not_finite_in(a, b, c) {
        return Err(Refusal::NotFinite);
    }
    if beyond_limit_in(a, b, c) {
        return Err(Refusal::TooLarge);
    }
    Ok(())
}

// Numbers 1 to 3 of a list of least to most vertices or points.
fn shape_refusal(l: &[f64], least: usize, most: usize) -> Result<(), Refusal>
    ensures { refused_by result ≡ refusal (refusals.shape_tests least most (l.now ∷ [])) }
{
    let n = l.len() / 2;
    if l.len() % 2 == 1 {
        return Err(Refusal::OddCount);
    }
    if n < least {
        return Err(Refusal::TooFewVertices);
    }
    if most < n {
        return Err(Refusal::TooManyVertices);
    }
    Ok(())
}

// Numbers 1 to 3 of two lists of 3 to 256 vertices.
fn shapes_refusal(c: &[f64], s: &[f64]) -> Result<(), Refusal>
    ensures { refused_by result ≡ refusal (refusals.shape_tests 3 256 (c.now ∷ s.now ∷ [])) }
{
    let n = c.len() / 2;
    let m = s.len() / 2;
    if c.len() % 2 == 1 {
        return Err(Refusal::OddCount);
    }
    if s.len() % 2 == 1 {
        return Err(Refusal::OddCount);
    }
    if n < 3 {
        return Err(Refusal::TooFewVertices);
    }
    if m < 3 {
        return Err(Refusal::TooFewVertices);
    }
    if 256 < n {
        return Err(Refusal::TooManyVertices);
    }
    if 256 < m {
        return Err(Refusal::TooManyVertices);
    }
    Ok(())
}

// Numbers 1 to 5 of one list of least to most vertices or points.
pub fn list_refusal(l: &[f64], least: usize, most: usize) -> Result<(), Refusal>
    ensures { refused_by result ≡ refusal (refusals.list_tests least most l.now) }
{
    shape_refusal(l, least, most)?;
    if any_beyond_limit(l) {
        let none = [0.0; 0];
        return numbers_refusal(l, &none, &none);
    }
    Ok(())
}

// Number 9: a body's radius is below 0.
pub fn radius_refusal(radius: f64) -> Result<(), Refusal>
    ensures { refused_by result ≡ refusal (refusals.radius_tests radius) }
{
    if radius < 0.0 {
        return Err(Refusal::NegativeRadius);
    }
    Ok(())
}

// Number 10: the ends of a box are reversed.
pub fn bounds_refusal(x: Aabb) -> Result<(), Refusal>
    ensures { refused_by result ≡ refusal (refusals.bounds_tests x) }
{
    if x.z1 < x.z0 {
        return Err(Refusal::ReversedBounds);
    }
    if x.r1 < x.r0 {
        return Err(Refusal::ReversedBounds);
    }
    Ok(())
}

// A body alone: numbers 4 and 5, then its own.
pub fn alone_refusal<R: Outcome>(numbers: &[f64], own: R) -> R
    ensures { R.number result ≡ or_else (refusal (refusals.number_tests numbers.now)) (R.number own) }
{
    if any_beyond_limit(numbers) {
        let none = [0.0; 0];
        let of_body = R::of(numbers_refusal(numbers, &none, &none));
        if of_body.is_refused() {
            return of_body;
        }
        return own;
    }
    own
}

// A radius below -1e-9.
pub fn any_below_axis(l: &[f64]) -> bool
    ensures { result ≡ refusals.any_below_axis l.now }
{
    let n = l.len() / 2;
    for k in 0..n {
        if l[k * 2 + 1] < -1e-9 {
            return true;
        }
    }
    false
}

// Number 6 of a section; then the body's own.
fn axis_refusal<R: Outcome>(s: &[f64], own: R) -> R
    ensures { R.number result ≡ or_else (refusal (refusals.axis_tests s.now)) (R.number own) }
{
    if any_below_axis(s) {
        return R::of(Err(Refusal::RadiusBelowAxis));
    }
    own
}

// A section of 3 to 256 vertices, a body's numbers and more that are given; then what is turned
// down of the call's settings, then of the section's radii, then of the body.
pub fn body_refusal<R: Outcome>(s: &[f64], numbers: &[f64], extra: &[f64], settings: R, own: R) -> R
    ensures { let l = s.now in
        let given = refusals.given_tests (l ∷ []) (l ++ (numbers.now ++ extra.now)) in
        R.number result ≡ or_else (refusal given) (or_else (R.number settings) (or_else (refusal (refusals.axis_tests l)) (R.number own))) }
{
    let of_shape = R::of(shape_refusal(s, 3, 256));
    if of_shape.is_refused() {
        return of_shape;
    }
    if numbers_fine(s, numbers, extra) {
        if settings.is_refused() {
            return settings;
        }
        return own;
    }
    let of_numbers = R::of(numbers_refusal(s, numbers, extra));
    if of_numbers.is_refused() {
        return of_numbers;
    }
    if settings.is_refused() {
        return settings;
    }
    axis_refusal(s, own)
}

pub fn point_refusal(s: &[f64], p: Vec3) -> Result<(), Refusal>
    ensures { refused_by result ≡ refusal (refusals.point_tests s.now p) }
{
    let numbers = [p.x, p.y, p.z];
    let none = [0.0; 0];
    body_refusal(s, &numbers[..], &none, Ok(()), Ok(()))
}

pub fn sphere_refusal<R: Outcome>(s: &[f64], b: Sphere, extra: &[f64], settings: R) -> R
    ensures { WithSettings (R.number settings) (refusals.sphere_tests s.now b extra.now) (R.number result) }
{
    let c = b.center;
    let numbers = [c.x, c.y, c.z, b.radius];
    let own = R::of(radius_refusal(b.radius));
    body_refusal(s, &numbers[..], extra, settings, own)
}

pub fn box_refusal<R: Outcome>(s: &[f64], x: Aabb, extra: &[f64], settings: R) -> R
    ensures { WithSettings (R.number settings) (refusals.box_tests s.now x extra.now) (R.number result) }
{
    let numbers = [x.z0, x.z1, x.r0, x.r1];
    let own = R::of(bounds_refusal(x));
    body_refusal(s, &numbers[..], extra, settings, own)
}

// Two lists of 3 to 256 vertices, and more numbers that are given; then the section's own.
pub fn convex_refusal(c: &[f64], s: &[f64], extra: &[f64]) -> Result<(), Refusal>
    ensures { refused_by result ≡ refusal (refusals.convex_tests c.now s.now extra.now) }
{
    shapes_refusal(c, s)?;
    if numbers_fine(s, c, extra) {
        return Ok(());
    }
    numbers_refusal(c, s, extra)?;
    axis_refusal(s, Ok(()))
}
