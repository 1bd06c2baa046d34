// Vectors of three f64 by value.
ghost use Rattle.std.specs.Prelude.{◌≡◌};
ghost use Rattle.arith.specs.Vector.{subtract, scale_by, norm};

use crate::hypot;

#[derive(Clone, Copy)]
pub struct Vec3 {
    pub x: f64,
    pub y: f64,
    pub z: f64,
}

impl Vec3 {
    pub fn sub(self, other: Vec3) -> Vec3
        ensures { result ≡ subtract self other }
    {
        Vec3 {
            x: self.x - other.x,
            y: self.y - other.y,
            z: self.z - other.z,
        }
    }

    pub fn scale(self, factor: f64) -> Vec3
        ensures { result ≡ scale_by self factor }
    {
        Vec3 {
            x: self.x * factor,
            y: self.y * factor,
            z: self.z * factor,
        }
    }

    pub fn length(self) -> f64
        ensures { result ≡ norm self }
    {
        // Along z the length is the magnitude of z: no root. Of a zero, 0.0 - z is +0.
        if self.x == 0.0 {
            if self.y == 0.0 {
                if self.z > 0.0 {
                    return self.z;
                }
                return 0.0 - self.z;
            }
        }
        let across = hypot(self.x, self.y);
        hypot(across, self.z)
    }
}
