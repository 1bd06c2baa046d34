// What the C interface over vertex records answers, body and answer as records too. The crate records_c
// exports these functions under their names.
ghost use Rattle.std.specs.Prelude.{◌≡◌};
ghost use Rattle.section.specs.Answers.{point_answer, sphere_answer, box_answer};
ghost use Rattle.walk.specs.cylinders.Cylinders.{cylinder_answer};
ghost use Rattle.walk.specs.settings.Settings.{finest};
ghost use Rattle.records.specs.Flattened.{flattened};
ghost use Rattle.records.specs.Replies.{point_of, sphere_of, box_of, cylinder_of, c_reply, c_cylinder_reply};

use super::queries::{
    aabb_polygon_distance_of, query_cylinder_of, query_sphere_of, signed_distance_of,
};
use super::replies::{Ball, Bar, Bounds, CylinderReply, Place, Reply, cylinder_reply_of, reply_of};
use arith::Vec3;
use section::{Aabb, Sphere, Vertex};
use walk::Cylinder;

pub fn jorghipa_point_of(section: &[Vertex], place: Place) -> Reply
    ensures { result ≡ c_reply (point_answer (flattened section.now) (point_of place)) }
{
    reply_of(signed_distance_of(section, Vec3::from(place)))
}

pub fn jorghipa_sphere_of(section: &[Vertex], ball: Ball) -> Reply
    ensures { result ≡ c_reply (sphere_answer (flattened section.now) (sphere_of ball)) }
{
    reply_of(query_sphere_of(section, Sphere::from(ball)))
}

pub fn jorghipa_box_of(section: &[Vertex], bounds: Bounds) -> Reply
    ensures { result ≡ c_reply (box_answer (flattened section.now) (box_of bounds)) }
{
    reply_of(aabb_polygon_distance_of(section, Aabb::from(bounds)))
}

pub fn jorghipa_cylinder_of(section: &[Vertex], bar: Bar) -> CylinderReply
    ensures { result ≡ c_cylinder_reply (cylinder_answer (flattened section.now) (cylinder_of bar) finest) }
{
    cylinder_reply_of(query_cylinder_of(section, Cylinder::from(bar)))
}
