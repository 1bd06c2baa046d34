// The queries of two sections. They ask nothing of the caller.
ghost use Rattle.std.specs.Prelude.{[], ◌≡◌};
ghost use Rattle.section.specs.profile.Replies.{Answers};
ghost use Rattle.bodies.specs.pairs.Pairs.{won_by, told, nearer, pair_answer, pair_convex_answer, handed_back};
ghost use Rattle.bodies.specs.pairs.Pairs.{PairPromised, PairConvexPromised};

use super::refusal::pair_refusal;
use super::shapes::Won;
use crate::queries::boxes_only;
use crate::{Body, body_alone, query_body};
use section::{Refusal, convex_polygon_distance, list_refusal};
use walk::{CountedHit, finest};

// The smaller distance; the chuck wins an equal one.
fn nearer(chuck: CountedHit, work: CountedHit) -> Won
    ensures { won_by result ≡ nearer chuck work }
{
    if work.hit.distance < chuck.hit.distance {
        return Won::Work(work);
    }
    Won::Chuck(chuck)
}

pub fn query_pair(chuck: &[f64], work: &[f64], body: Body) -> Result<Won, Refusal>
    ensures { let c = chuck.now in let w = work.now in
        Answers (told result) (pair_answer c w body) (PairPromised c w body) }
{
    pair_refusal(chuck, work, body_alone(body))?;
    let settings = finest();
    let of_chuck = query_body(chuck, body, settings)?;
    let of_work = query_body(work, body, settings)?;
    Ok(nearer(of_chuck, of_work))
}

// A convex body counts no box.
pub fn query_pair_convex(chuck: &[f64], work: &[f64], convex: &[f64]) -> Result<Won, Refusal>
    ensures { let c = chuck.now in let w = work.now in
        Answers (told result) (pair_convex_answer c w convex.now) (PairConvexPromised c w) }
{
    pair_refusal(chuck, work, list_refusal(convex, 3, 256))?;
    let of_chuck = convex_polygon_distance(convex, chuck)?;
    let of_work = convex_polygon_distance(convex, work)?;
    Ok(nearer(boxes_only(of_chuck, 0), boxes_only(of_work, 0)))
}

// The list of the section that won, as it was lent; an empty part where the call is turned down.
fn winner<'a>(chuck: &'a [f64], work: &'a [f64], answer: Result<Won, Refusal>) -> &'a [f64]
    ensures { (result.now ≡ handed_back chuck.now work.now [] (told answer))
        × (result.ref_ptr ≡ handed_back chuck.entry.ref_ptr work.entry.ref_ptr chuck.entry.ref_ptr (told answer)) }
{
    match answer {
        Ok(Won::Chuck(_)) => chuck,
        Ok(Won::Work(_)) => work,
        Err(_) => &chuck[..0],
    }
}

pub fn nearer_section<'a>(chuck: &'a [f64], work: &'a [f64], body: Body) -> &'a [f64]
    ensures { let answer = pair_answer chuck.now work.now body in
        (result.now ≡ handed_back chuck.now work.now [] answer)
        × (result.ref_ptr ≡ handed_back chuck.entry.ref_ptr work.entry.ref_ptr chuck.entry.ref_ptr answer) }
{
    winner(chuck, work, query_pair(chuck, work, body))
}

pub fn nearer_section_convex<'a>(chuck: &'a [f64], work: &'a [f64], convex: &[f64]) -> &'a [f64]
    ensures { let answer = pair_convex_answer chuck.now work.now convex.now in
        (result.now ≡ handed_back chuck.now work.now [] answer)
        × (result.ref_ptr ≡ handed_back chuck.entry.ref_ptr work.entry.ref_ptr chuck.entry.ref_ptr answer) }
{
    winner(chuck, work, query_pair_convex(chuck, work, convex))
}
