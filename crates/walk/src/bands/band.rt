// The box of a cylinder along the spindle, and the band of one across it, along X: half width and span.
ghost use Rattle.std.specs.Prelude.{◌≡◌, cond};
ghost use Rattle.std.specs.Float.Ieee.{neg};
ghost use Rattle.arith.specs.F64.{◌≼◌};
ghost use Rattle.walk.specs.bands.Band as band;
ghost use Rattle.walk.specs.bands.Band.{axial_box, band_of, half_width, radius_span, span_at, closest_to_zero};

use super::shapes::{Cylinder, RadialBand, Span};
use arith::Vec3;
use section::Aabb;

pub fn axial_box(c: Cylinder) -> Aabb
    ensures { result ≡ axial_box c }
{
    let a = c.a;
    let b = c.b;
    let radius = c.radius;
    let r = arith::hypot((a.x + b.x) * 0.5, (a.y + b.y) * 0.5);
    Aabb {
        z0: arith::min(a.z, b.z),
        z1: arith::max(a.z, b.z),
        r0: arith::max(r - radius, 0.0),
        r1: r + radius,
    }
}

fn exchange(p: Vec3) -> Vec3
    ensures { result ≡ band.exchange p }
{
    Vec3 {
        x: p.y,
        y: p.x,
        z: p.z,
    }
}

// The same cylinder with x and y exchanged.
pub fn exchanged(c: Cylinder) -> Cylinder
    ensures { result ≡ band.exchanged c }
{
    let a = c.a;
    let b = c.b;
    Cylinder {
        a: exchange(a),
        b: exchange(b),
        radius: c.radius,
    }
}

// Of the numbers from lo to hi the one closest to 0.
fn closest_to_zero(lo: f64, hi: f64) -> f64
    ensures { result ≡ closest_to_zero lo hi }
{
    if 0.0 < lo {
        return lo;
    }
    if hi < 0.0 { hi } else { 0.0 }
}

// Of the numbers from lo to hi the one farthest from 0.
fn farthest_from_zero(lo: f64, hi: f64) -> f64
    ensures { result ≡ cond (hi ≼ neg lo) lo hi }
{
    if hi <= -lo { lo } else { hi }
}

// The greatest radius of the four corners. Where the ends are in order one corner has it; others are
// left to the definition.
fn greatest_radius(x0: f64, x1: f64, y0: f64, y1: f64) -> f64
    ensures { result ≡ (radius_span x0 x1 y0 y1).hi }
{
    if x0 <= x1 {
        if y0 <= y1 {
            return arith::hypot(farthest_from_zero(x0, x1), farthest_from_zero(y0, y1));
        }
    }
    let first = arith::max(arith::hypot(x0, y0), arith::hypot(x0, y1));
    let second = arith::max(first, arith::hypot(x1, y0));
    arith::max(second, arith::hypot(x1, y1))
}

// The least and the greatest radius of the rectangle x0..x1, y0..y1.
fn radius_span(x0: f64, x1: f64, y0: f64, y1: f64) -> Span
    ensures { result ≡ radius_span x0 x1 y0 y1 }
{
    Span {
        lo: arith::hypot(closest_to_zero(x0, x1), closest_to_zero(y0, y1)),
        hi: greatest_radius(x0, x1, y0, y1),
    }
}

impl RadialBand {
    pub fn from_cylinder(c: Cylinder) -> RadialBand
        ensures { result ≡ band_of c }
    {
        let a = c.a;
        let b = c.b;
        RadialBand {
            x0: arith::min(a.x, b.x),
            x1: arith::max(a.x, b.x),
            yc: (a.y + b.y) * 0.5,
            zc: (a.z + b.z) * 0.5,
            radius: c.radius,
        }
    }

    pub fn rho_at(self, z: f64) -> f64
        ensures { result ≡ half_width self z }
    {
        let dz = z - self.zc;
        let value = self.radius * self.radius - dz * dz;
        if value <= 0.0 {
            0.0
        } else {
            arith::sqrt(value)
        }
    }

    pub fn span_at_rho(self, rho: f64) -> Span
        ensures { result ≡ span_at self rho }
    {
        radius_span(self.x0, self.x1, self.yc - rho, self.yc + rho)
    }

    pub fn span_at_z(self, z: f64) -> Span
        ensures { result ≡ span_at self (half_width self z) }
    {
        self.span_at_rho(self.rho_at(z))
    }
}
