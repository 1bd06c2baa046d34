// The verdicts: collision exactly when the judged distance + 1e-9 < clearance.
ghost use Rattle.std.specs.Prelude.{◌≡◌};
ghost use Rattle.bodies.specs.declared.shapes.Body.TheVariants as body_kinds;
ghost use Rattle.bodies.specs.verdicts.Verdicts.{told, is_collision, collides, body_verdict, convex_verdict};

use super::shapes::Verdict;
use super::tilt::less_tilt;
use crate::Body;
use section::{
    Aabb, Refusal, Sphere, box_distance, box_refusal, convex_distance, convex_refusal,
    sphere_distance, sphere_refusal,
};
use walk::{Cylinder, axis_of, cylinder_distance, cylinder_refusal, finest};

// A distance this much below the clearance is still a touch.
const TOUCH_SLACK: f64 = 1e-9;

pub fn collides(distance: f64, clearance: f64) -> bool
    ensures { result ≡ collides distance clearance }
{
    distance + TOUCH_SLACK < clearance
}

fn judged(distance: f64, clearance: f64) -> Verdict
    ensures { is_collision result ≡ collides distance clearance }
{
    Verdict::from(collides(distance, clearance))
}

pub fn verdict_sphere(section: &[f64], sphere: Sphere, clearance: f64) -> Result<Verdict, Refusal>
    ensures { told result ≡ body_verdict section.now (body_kinds.Sphere sphere) clearance }
{
    let extra = [clearance];
    sphere_refusal(section, sphere, &extra[..], Ok(()))?;
    Ok(judged(sphere_distance(section, sphere).distance, clearance))
}

pub fn verdict_box(section: &[f64], x: Aabb, clearance: f64) -> Result<Verdict, Refusal>
    ensures { told result ≡ body_verdict section.now (body_kinds.Box x) clearance }
{
    let extra = [clearance];
    box_refusal(section, x, &extra[..], Ok(()))?;
    Ok(judged(box_distance(section, x).distance, clearance))
}

pub fn verdict_cylinder(
    section: &[f64],
    cylinder: Cylinder,
    clearance: f64,
) -> Result<Verdict, Refusal>
    ensures { told result ≡ body_verdict section.now (body_kinds.Cylinder cylinder) clearance }
{
    let extra = [clearance];
    let axis = axis_of(cylinder);
    cylinder_refusal(section, cylinder, axis, &extra[..], Ok(()))?;
    let counted = cylinder_distance(section, cylinder, axis, finest());
    let distance = less_tilt(axis, cylinder, counted.hit.distance);
    Ok(judged(distance, clearance))
}

// The verdict on a body, whatever its kind.
pub fn verdict_body(section: &[f64], body: Body, clearance: f64) -> Result<Verdict, Refusal>
    ensures { told result ≡ body_verdict section.now body clearance }
{
    match body {
        Body::Sphere(sphere) => verdict_sphere(section, sphere, clearance),
        Body::Box(x) => verdict_box(section, x, clearance),
        Body::Cylinder(cylinder) => verdict_cylinder(section, cylinder, clearance),
    }
}

pub fn verdict_convex(section: &[f64], convex: &[f64], clearance: f64) -> Result<Verdict, Refusal>
    ensures { told result ≡ convex_verdict convex.now section.now clearance }
{
    let extra = [clearance];
    convex_refusal(convex, section, &extra[..])?;
    Ok(judged(convex_distance(convex, section).distance, clearance))
}
