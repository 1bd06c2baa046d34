// The query of a body, whatever its kind.
ghost use Rattle.std.specs.Prelude.{◌≡◌};
ghost use Rattle.section.specs.profile.Replies.{told, Answers};
ghost use Rattle.bodies.specs.Bodies.{body_answer, BodyPromised, boxes_only};
ghost use Rattle.bodies.specs.declared.shapes.Body.TheVariants as body_kinds;

use super::shapes::Body;
use section::{
    Aabb, CollisionHit, Refusal, Sphere, box_distance, box_refusal, sphere_distance, sphere_refusal,
};
use walk::{CountedHit, Settings, query_cylinder, settings_refusal};

// This number of boxes, nothing waiting, uncut.
pub fn boxes_only(hit: CollisionHit, boxes: usize) -> CountedHit
    ensures { result ≡ boxes_only boxes hit }
{
    CountedHit {
        hit,
        boxes,
        waiting: 0,
        cut: false,
    }
}

fn query_sphere(section: &[f64], sphere: Sphere, settings: Settings) -> Result<CountedHit, Refusal>
    ensures { let s = section.now in let b = body_kinds.Sphere sphere in
        Answers (told result) (body_answer s b settings) (BodyPromised s b settings) }
{
    let none = [0.0; 0];
    sphere_refusal(section, sphere, &none, settings_refusal(settings))?;
    Ok(boxes_only(sphere_distance(section, sphere), 0))
}

fn query_box(section: &[f64], x: Aabb, settings: Settings) -> Result<CountedHit, Refusal>
    ensures { let s = section.now in let b = body_kinds.Box x in
        Answers (told result) (body_answer s b settings) (BodyPromised s b settings) }
{
    let none = [0.0; 0];
    box_refusal(section, x, &none, settings_refusal(settings))?;
    Ok(boxes_only(box_distance(section, x), 1))
}

// A hit with its counts and mark, or why the call is turned down. It asks nothing of the caller.
pub fn query_body(section: &[f64], body: Body, settings: Settings) -> Result<CountedHit, Refusal>
    ensures { let s = section.now in
        Answers (told result) (body_answer s body settings) (BodyPromised s body settings) }
{
    match body {
        Body::Sphere(sphere) => query_sphere(section, sphere, settings),
        Body::Box(x) => query_box(section, x, settings),
        Body::Cylinder(cylinder) => query_cylinder(section, cylinder, settings),
    }
}
