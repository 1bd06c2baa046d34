// 02's lifted witness: the witness's radius laid out towards the body's middle.
ghost use Rattle.bodies.specs.lifted.Placed.{Lifts};

use arith::Vec3;
use section::Witness;

// (radius·x/h, radius·y/h, z) with h = hypot(x, y) of the middle; (radius, 0, z) where h is 0. A radius
// below 0 counts as 0.
pub fn lift(middle_x: f64, middle_y: f64, witness: Witness) -> Vec3
    ensures { Lifts middle_x middle_y witness result }
{
    let z = witness.z;
    let radius = arith::max(witness.r, 0.0);
    let h = arith::hypot(middle_x, middle_y);
    if h == 0.0 {
        return Vec3 {
            x: radius,
            y: 0.0,
            z,
        };
    }
    Vec3 {
        x: radius * middle_x / h,
        y: radius * middle_y / h,
        z,
    }
}
