// The queries: each gives a hit, or why it is turned down. They ask nothing of the caller.
ghost use Rattle.section.specs.profile.Replies.{told, Answers};
ghost use Rattle.section.specs.boxes.Boxes.{aabb};
ghost use Rattle.section.specs.Answers.{point_answer, sphere_answer, box_answer, convex_answer};
ghost use Rattle.section.specs.Demand.{Bounded, BoundedOffAxis};

use crate::Refusal;
use crate::aabb::box_distance;
use crate::convex::convex_distance;
use crate::profile::{Aabb, CollisionHit, Sphere};
use crate::refusals::{box_refusal, convex_refusal, point_refusal, sphere_refusal};
use crate::signed::{meridian, signed_distance_2d, sphere_distance};
use arith::Vec3;

pub fn signed_distance(section: &[f64], point: Vec3) -> Result<CollisionHit, Refusal>
    ensures { let s = section.now in Answers (told result) (point_answer s point) (BoundedOffAxis s) }
{
    point_refusal(section, point)?;
    Ok(signed_distance_2d(section, meridian(point)))
}

pub fn query_sphere(section: &[f64], sphere: Sphere) -> Result<CollisionHit, Refusal>
    ensures { let s = section.now in Answers (told result) (sphere_answer s sphere) (BoundedOffAxis s) }
{
    let none = [0.0; 0];
    sphere_refusal(section, sphere, &none, Ok(()))?;
    Ok(sphere_distance(section, sphere))
}

pub fn aabb_polygon_distance(
    z0: f64,
    z1: f64,
    r0: f64,
    r1: f64,
    polygon: &[f64],
) -> Result<CollisionHit, Refusal>
    ensures { let s = polygon.now in Answers (told result) (box_answer s (aabb z0 z1 r0 r1)) (Bounded s) }
{
    let x = Aabb { z0, z1, r0, r1 };
    let none = [0.0; 0];
    box_refusal(polygon, x, &none, Ok(()))?;
    Ok(box_distance(polygon, x))
}

pub fn convex_polygon_distance(convex: &[f64], polygon: &[f64]) -> Result<CollisionHit, Refusal>
    ensures { let s = polygon.now in Answers (told result) (convex_answer convex.now s) (Bounded s) }
{
    let none = [0.0; 0];
    convex_refusal(convex, polygon, &none)?;
    Ok(convex_distance(convex, polygon))
}
