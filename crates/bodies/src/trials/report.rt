// The report of a move, step by step.
ghost use Rattle.std.specs.Prelude.{◌+◌, ◌≤◌, ◌≡◌};
ghost use Rattle.bodies.specs.moves.Moves.{untried, with_step};
ghost use Rattle.bodies.specs.moves.Steps.{nearer_step};

use crate::Body;
use crate::moves::Report;
use crate::verdicts::{collides, judged_distance};
use walk::CountedHit;

// Before the first step.
pub fn untried() -> Report
    ensures { result ≡ untried }
{
    Report {
        distance: arith::infinity(),
        step: 0,
        colliding_step: None,
        boxes: 0,
    }
}

// A strictly smaller distance takes over, with its step.
fn nearer_step(report: Report, i: u32, distance: f64) -> Report
    ensures { result ≡ nearer_step i distance report }
{
    if distance < report.distance {
        return Report {
            distance,
            step: i,
            ..report
        };
    }
    report
}

// With step i, at which the body stands there and its query gives this hit.
pub fn with_step(report: Report, i: u32, body: Body, hit: CountedHit, clearance: f64) -> Report
    requires { report.boxes + hit.boxes ≤ 4294967295 }
    ensures { result ≡ with_step i body hit clearance report }
{
    let distance = hit.hit.distance;
    let hits = collides(judged_distance(body, distance), clearance);
    Report {
        colliding_step: report.colliding_step.or(hits.then_some(i)),
        boxes: report.boxes + hit.boxes as u32,
        ..nearer_step(report, i, distance)
    }
}
