// The queries of bodies that have a middle in x and y: the plain answer, and its witness lifted. They ask
// nothing of the caller.
ghost use Rattle.section.specs.profile.Replies.{told, Answers};
ghost use Rattle.section.specs.Demand.{BoundedOffAxis};
ghost use Rattle.walk.specs.settings.Settings as finest_settings;
ghost use Rattle.walk.specs.cylinders.Promised.{Promised};
ghost use Rattle.bodies.specs.lifted.Answers.{lifted_point, lifted_sphere, lifted_cylinder, middle_x, middle_y};
ghost use Rattle.bodies.specs.lifted.Placed.{WithPlace, WithPlaceCounted};

use super::rule::lift;
use super::shapes::Lifted;
use arith::Vec3;
use section::{CollisionHit, Refusal, Sphere, query_sphere, signed_distance};
use walk::{CountedHit, Cylinder, finest, query_cylinder};

// A hit and its witness lifted, or why `signed_distance` turns the call down.
pub fn lifted_point(section: &[f64], point: Vec3) -> Result<Lifted<CollisionHit>, Refusal>
    ensures { let s = section.now in
        Answers (told result) (lifted_point s point) (WithPlace (BoundedOffAxis s) point.x point.y) }
{
    let x = point.x;
    let y = point.y;
    let hit = signed_distance(section, point)?;
    let witness = lift(x, y, hit.witness);
    Ok(Lifted { hit, witness })
}

// The same of `query_sphere`.
pub fn lifted_sphere(section: &[f64], sphere: Sphere) -> Result<Lifted<CollisionHit>, Refusal>
    ensures { let s = section.now in
        Answers (told result) (lifted_sphere s sphere) (WithPlace (BoundedOffAxis s) sphere.center.x sphere.center.y) }
{
    let center = sphere.center;
    let hit = query_sphere(section, sphere)?;
    let witness = lift(center.x, center.y, hit.witness);
    Ok(Lifted { hit, witness })
}

// The same of `query_cylinder` at the finest settings; the middle is the mean of the ends.
pub fn lifted_cylinder(section: &[f64], cylinder: Cylinder) -> Result<Lifted<CountedHit>, Refusal>
    ensures { let s = section.now in
        Answers (told result) (lifted_cylinder s cylinder)
        (WithPlaceCounted (Promised s cylinder finest_settings.finest) (middle_x cylinder) (middle_y cylinder)) }
{
    let a = cylinder.a;
    let b = cylinder.b;
    let x = (a.x + b.x) * 0.5;
    let y = (a.y + b.y) * 0.5;
    let hit = query_cylinder(section, cylinder, finest())?;
    let witness = lift(x, y, hit.hit.witness);
    Ok(Lifted { hit, witness })
}
