// The queries over vertex records: the core is asked on their numbers; more than 256 vertices are turned
// down before. They ask nothing of the caller.
ghost use Rattle.section.specs.profile.Replies.{told, Answers};
ghost use Rattle.section.specs.Answers.{point_answer, sphere_answer, box_answer};
ghost use Rattle.section.specs.Demand.{Bounded, BoundedOffAxis};
ghost use Rattle.walk.specs.cylinders.Cylinders.{cylinder_answer};
ghost use Rattle.walk.specs.cylinders.Promised.{Promised};
ghost use Rattle.walk.specs.settings.Settings.{finest};
ghost use Rattle.records.specs.Flattened.{flattened};

use super::copying::flatten;
use arith::Vec3;
use section::{Aabb, CollisionHit, Refusal, Sphere, Vertex};
use walk::{CountedHit, Cylinder};

pub fn signed_distance_of(section: &[Vertex], point: Vec3) -> Result<CollisionHit, Refusal>
    ensures { let s = flattened section.now in Answers (told result) (point_answer s point) (BoundedOffAxis s) }
{
    let mut items = [0.0; 512];
    let n = flatten(section, &mut items)?;
    section::signed_distance(&items[..n], point)
}

pub fn query_sphere_of(section: &[Vertex], sphere: Sphere) -> Result<CollisionHit, Refusal>
    ensures { let s = flattened section.now in Answers (told result) (sphere_answer s sphere) (BoundedOffAxis s) }
{
    let mut items = [0.0; 512];
    let n = flatten(section, &mut items)?;
    section::query_sphere(&items[..n], sphere)
}

pub fn aabb_polygon_distance_of(section: &[Vertex], bounds: Aabb) -> Result<CollisionHit, Refusal>
    ensures { let s = flattened section.now in Answers (told result) (box_answer s bounds) (Bounded s) }
{
    let mut items = [0.0; 512];
    let n = flatten(section, &mut items)?;
    section::aabb_polygon_distance(bounds.z0, bounds.z1, bounds.r0, bounds.r1, &items[..n])
}

pub fn query_cylinder_of(section: &[Vertex], cylinder: Cylinder) -> Result<CountedHit, Refusal>
    ensures { let s = flattened section.now in
        Answers (told result) (cylinder_answer s cylinder finest) (Promised s cylinder finest) }
{
    let mut items = [0.0; 512];
    let n = flatten(section, &mut items)?;
    walk::query_cylinder(&items[..n], cylinder, walk::finest())
}
