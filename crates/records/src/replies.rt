// Bodies and answers as the C interface has them: records of numbers, as C lays them out.
ghost use Rattle.std.specs.Prelude.{◌≡◌};
ghost use Rattle.section.specs.profile.Replies.{OfValue, told};
ghost use Rattle.section.specs.Demand.{FewEdges};
ghost use Rattle.records.specs.Replies as replies;
ghost use Rattle.records.specs.Steps.{FewEdgesOf};

use arith::Vec3;
use section::{Aabb, CollisionHit, Refusal, Sphere};
use walk::{CountedHit, Cylinder};

#[repr(C)]
#[derive(Clone, Copy)]
pub struct Place {
    pub x: f64,
    pub y: f64,
    pub z: f64,
}

#[repr(C)]
#[derive(Clone, Copy)]
pub struct Ball {
    pub x: f64,
    pub y: f64,
    pub z: f64,
    pub radius: f64,
}

#[repr(C)]
#[derive(Clone, Copy)]
pub struct Bounds {
    pub z0: f64,
    pub z1: f64,
    pub r0: f64,
    pub r1: f64,
}

// From (ax, ay, az) to (bx, by, bz).
#[repr(C)]
#[derive(Clone, Copy)]
pub struct Bar {
    pub ax: f64,
    pub ay: f64,
    pub az: f64,
    pub bx: f64,
    pub by: f64,
    pub bz: f64,
    pub radius: f64,
}

// A hit and the number 0; or the number under which the call is turned down, and all else 0.
#[repr(C)]
#[derive(Clone, Copy)]
pub struct Reply {
    pub distance: f64,
    pub witness_z: f64,
    pub witness_radius: f64,
    pub edge: u32,
    pub number: u32,
}

// The same with the counts and the mark.
#[repr(C)]
#[derive(Clone, Copy)]
pub struct CylinderReply {
    pub distance: f64,
    pub witness_z: f64,
    pub witness_radius: f64,
    pub edge: u32,
    pub boxes: usize,
    pub waiting: usize,
    pub number: u32,
    pub cut: bool,
}

impl From<Place> for Vec3 {
    ghost from_gives = { λ place point. point ≡ replies.point_of place };

    fn from(place: Place) -> Vec3 {
        Vec3 {
            x: place.x,
            y: place.y,
            z: place.z,
        }
    }
}

impl From<Ball> for Sphere {
    ghost from_gives = { λ ball sphere. sphere ≡ replies.sphere_of ball };

    fn from(ball: Ball) -> Sphere {
        let center = Vec3 {
            x: ball.x,
            y: ball.y,
            z: ball.z,
        };
        let radius = ball.radius;
        Sphere { center, radius }
    }
}

impl From<Bounds> for Aabb {
    ghost from_gives = { λ bounds x. x ≡ replies.box_of bounds };

    fn from(bounds: Bounds) -> Aabb {
        Aabb {
            z0: bounds.z0,
            z1: bounds.z1,
            r0: bounds.r0,
            r1: bounds.r1,
        }
    }
}

impl From<Bar> for Cylinder {
    ghost from_gives = { λ bar cylinder. cylinder ≡ replies.cylinder_of bar };

    fn from(bar: Bar) -> Cylinder {
        let a = Vec3 {
            x: bar.ax,
            y: bar.ay,
            z: bar.az,
        };
        let b = Vec3 {
            x: bar.bx,
            y: bar.by,
            z: bar.bz,
        };
        let radius = bar.radius;
        Cylinder { a, b, radius }
    }
}

pub fn reply_of(answer: Result<CollisionHit, Refusal>) -> Reply
    requires { OfValue FewEdges (told answer) }
    ensures { result ≡ replies.c_reply (told answer) }
{
    match answer {
        Ok(h) => {
            let at = h.witness;
            let edge = at.edge as u32;
            Reply {
                distance: h.distance,
                witness_z: at.z,
                witness_radius: at.r,
                edge,
                number: 0,
            }
        }
        Err(refusal) => Reply {
            distance: 0.0,
            witness_z: 0.0,
            witness_radius: 0.0,
            edge: 0,
            number: refusal.number(),
        },
    }
}

pub fn cylinder_reply_of(answer: Result<CountedHit, Refusal>) -> CylinderReply
    requires { OfValue FewEdgesOf (told answer) }
    ensures { result ≡ replies.c_cylinder_reply (told answer) }
{
    match answer {
        Ok(h) => {
            let hit = h.hit;
            let at = hit.witness;
            let edge = at.edge as u32;
            CylinderReply {
                distance: hit.distance,
                witness_z: at.z,
                witness_radius: at.r,
                edge,
                boxes: h.boxes,
                waiting: h.waiting,
                number: 0,
                cut: h.cut,
            }
        }
        Err(refusal) => CylinderReply {
            distance: 0.0,
            witness_z: 0.0,
            witness_radius: 0.0,
            edge: 0,
            boxes: 0,
            waiting: 0,
            number: refusal.number(),
            cut: false,
        },
    }
}
