// The builders: which points of a section or polygon are kept, counted first, then written to the
// front of the lent space.
ghost use Rattle.std.specs.Prelude.{◌≡◌, ◌+◌, ◌*◌, ◌<◌, ◌≤◌, length};
ghost use Rattle.section.specs.profile.Vertices.{count};
ghost use Rattle.section.specs.builders.Builder as builder;
ghost use Rattle.section.specs.profile.Replies.{told};
ghost use Rattle.section.specs.builders.Kept.{section_answer, polygon_answer, section_kept, polygon_kept};
ghost use Rattle.section.specs.builders.Steps.{is_repeat, pushed, pushed_space, written, point_at, run_of, front_kept, three_kept, Builds};

use crate::Refusal;
use crate::profile::{Vertex, vertex_at};
use crate::refusals::{any_below_axis, list_refusal};

// The last vertex that is kept, (0, 0) while there is none, and how many are. The count says whether there is a last:
// an Option of it would have to be unwrapped at each closing.
#[derive(Clone, Copy)]
pub struct Run {
    pub last: Vertex,
    pub count: usize,
}

fn same_point(a: Vertex, b: Vertex) -> bool
    ensures { result ≡ builder.same_point a b }
{
    arith::abs(a.z - b.z) <= 1e-12 && arith::abs(a.r - b.r) <= 1e-12
}

// Point k of the list, a negative radius raised to 0.
fn point_at(points: &[f64], k: usize) -> Vertex
    requires { k < count points.now }
    ensures { result ≡ point_at points.now k }
{
    let v = vertex_at(points, k);
    Vertex {
        z: v.z,
        r: arith::max(v.r, 0.0),
    }
}

// Writes v in place `at`, below the limit.
fn put(space: &mut [f64], limit: usize, at: usize, v: Vertex)
    requires { limit * 2 ≤ length space.old }
    ensures { space.new ≡ written limit at v space.old }
{
    if at < limit {
        let i = at * 2;
        space[i] = v.z;
        space[i + 1] = v.r;
    }
}

fn is_repeat(run: Run, v: Vertex) -> bool
    ensures { result ≡ is_repeat run v }
{
    0 < run.count && same_point(run.last, v)
}

// Keeps v, unless it repeats the last one that is kept.
fn push_dedup(space: &mut [f64], limit: usize, run: Run, v: Vertex) -> Run
    requires { (limit * 2 ≤ length space.old) × (run.count ≤ 256) }
    ensures { (result ≡ pushed v run) × (space.new ≡ pushed_space limit v run space.old) }
{
    if is_repeat(run, v) {
        return run;
    }
    let at = run.count;
    put(space, limit, at, v);
    Run {
        last: v,
        count: at + 1,
    }
}

// Keeps the points one after the other, and writes as many as the limit says.
fn push_points(points: &[f64], space: &mut [f64], limit: usize) -> Run
    requires { (count points.now ≤ 256) × (limit * 2 ≤ length space.old) }
    ensures { (result ≡ run_of (builder.kept_points points.now (count points.now)))
        × (space.new
        ≡ front_kept limit (builder.kept_points points.now (count points.now)) space.old) }
{
    let n = points.len() / 2;
    let mut run = Run {
        last: Vertex { z: 0.0, r: 0.0 },
        count: 0,
    };
    for k in 0..n {
        run = push_dedup(space, limit, run, point_at(points, k));
    }
    run
}

// Keeps the section's points and the closing points, writes as many as the limit says, and counts
// them all.
fn push_section(points: &[f64], space: &mut [f64], limit: usize) -> usize
    requires { (2 ≤ count points.now) × (count points.now ≤ 254) × (limit * 2 ≤ length space.old) }
    ensures { (result ≡ count (builder.section_of points.now))
        × (space.new ≡ front_kept limit (builder.section_of points.now) space.old) }
{
    let first = point_at(points, 0);
    let run = push_points(points, space, limit);
    let last = run.last;
    let down = Vertex { z: last.z, r: 0.0 };
    let closing = push_dedup(space, limit, run, down);
    let back = Vertex { z: first.z, r: 0.0 };
    let closed = push_dedup(space, limit, closing, back);
    closed.count
}

// Keeps the polygon's points, writes as many as the limit says, and counts them all but a repeated
// closing vertex.
fn push_polygon(points: &[f64], space: &mut [f64], limit: usize) -> usize
    requires { (3 ≤ count points.now) × (count points.now ≤ 256)
        × (limit * 2 ≤ length space.old) × (limit ≤ count (builder.polygon_of points.now)) }
    ensures { (result ≡ count (builder.polygon_of points.now))
        × (space.new ≡ front_kept limit (builder.polygon_of points.now) space.old) }
{
    let first = point_at(points, 0);
    let run = push_points(points, space, limit);
    let n = run.count;
    if n <= 1 {
        return n;
    }
    if same_point(first, run.last) {
        return n - 1;
    }
    n
}

// At least 3 vertices are to be kept.
fn three_kept(vertices: usize) -> Result<usize, Refusal>
    requires { vertices ≤ 256 }
    ensures { result ≡ three_kept vertices }
{
    if vertices < 3 {
        return Err(Refusal::TooFewKept);
    }
    Ok(vertices * 2)
}

// What write_section answers, how many numbers are kept; nothing is written.
pub fn check_section(points: &[f64], space: &[f64]) -> Result<usize, Refusal>
    ensures { told result ≡ section_answer points.now space.now }
{
    list_refusal(points, 2, 254)?;
    if any_below_axis(points) {
        return Err(Refusal::RadiusBelowAxis);
    }
    let n = points.len() / 2;
    if space.len() < n * 2 + 4 {
        return Err(Refusal::SpaceTooSmall);
    }
    let mut none = [0.0; 1];
    three_kept(push_section(points, &mut none[..], 0))
}

// What write_polygon answers; nothing is written.
pub fn check_polygon(points: &[f64], space: &[f64]) -> Result<usize, Refusal>
    ensures { told result ≡ polygon_answer points.now space.now }
{
    list_refusal(points, 3, 256)?;
    if any_below_axis(points) {
        return Err(Refusal::RadiusBelowAxis);
    }
    let n = points.len() / 2;
    if space.len() < n * 2 {
        return Err(Refusal::SpaceTooSmall);
    }
    let mut none = [0.0; 1];
    three_kept(push_polygon(points, &mut none[..], 0))
}

// Writes the kept points to the front of the space, and says how many numbers they have; what is turned
// down leaves the space as it was.
pub fn write_section(points: &[f64], space: &mut [f64]) -> Result<usize, Refusal>
    ensures { let s = points.now in let free = space.old in
        Builds (section_answer s free) (section_kept s free) free result space.new }
{
    let numbers = check_section(points, &space[..])?;
    push_section(points, space, numbers / 2);
    Ok(numbers)
}

pub fn write_polygon(points: &[f64], space: &mut [f64]) -> Result<usize, Refusal>
    ensures { let s = points.now in let free = space.old in
        Builds (polygon_answer s free) (polygon_kept s free) free result space.new }
{
    let numbers = check_polygon(points, &space[..])?;
    push_polygon(points, space, numbers / 2);
    Ok(numbers)
}

// The written front of the space, from its first place on; empty where it is turned down.
pub fn try_from_section<'a, 'b>(points: &'b [f64], space: &'a mut [f64]) -> &'a mut [f64]
    ensures { (result.now ≡ section_kept points.now space.old) × (result.ref_ptr ≡ space.entry.ref_ptr) }
{
    let numbers = write_section(points, space).unwrap_or(0);
    &mut space[..numbers]
}

pub fn try_from_polygon<'a, 'b>(points: &'b [f64], space: &'a mut [f64]) -> &'a mut [f64]
    ensures { (result.now ≡ polygon_kept points.now space.old) × (result.ref_ptr ≡ space.entry.ref_ptr) }
{
    let count = write_polygon(points, space).unwrap_or(0);
    &mut space[..count]
}
