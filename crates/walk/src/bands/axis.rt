// The direction of a cylinder's axis, and whether it lies along or across the spindle.
ghost use Rattle.std.specs.Prelude.{◌≡◌};
ghost use Rattle.arith.specs.F64.{◌⊘◌, 𝟙};
ghost use Rattle.arith.specs.Vector.{scale_by};
ghost use Rattle.walk.specs.bands.Axis.{axis_dir, axis};

use super::shapes::{Axis, Cylinder};
use arith::Vec3;

// The components times the reciprocal of the length.
fn unit(delta: Vec3, len: f64) -> Vec3
    ensures { result ≡ scale_by delta (𝟙 ⊘ len) }
{
    delta.scale(1.0 / len)
}

// A cylinder of length 0 counts as along z.
fn axis_dir(c: Cylinder) -> Vec3
    ensures { result ≡ axis_dir c }
{
    let a = c.a;
    let b = c.b;
    let delta = b.sub(a);
    let len = delta.length();
    if len <= 0.0 {
        return Vec3 {
            x: 0.0,
            y: 0.0,
            z: 1.0,
        };
    }
    unit(delta, len)
}

pub fn axis_of(c: Cylinder) -> Axis
    ensures { result ≡ axis c }
{
    let dir = axis_dir(c);
    let most = 1.0 - 1e-8;
    let z = arith::abs(dir.z);
    if z >= most {
        return Axis::Axial;
    }
    let x = arith::abs(dir.x);
    let y = arith::abs(dir.y);
    if z <= 1e-8 {
        if x >= most {
            return Axis::AlongX;
        }
        if y >= most {
            return Axis::AlongY;
        }
    }
    Axis::Neither
}
