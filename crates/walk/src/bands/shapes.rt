// Cylinders, the direction of their axis, and the band of one across the spindle.
use arith::Vec3;

// A flat-capped cylinder, from a to b.
#[derive(Clone, Copy)]
pub struct Cylinder {
    pub a: Vec3,
    pub b: Vec3,
    pub radius: f64,
}

// A cylinder across the spindle: x from x0 to x1, its axis at yc and zc.
#[derive(Clone, Copy)]
pub struct RadialBand {
    pub x0: f64,
    pub x1: f64,
    pub yc: f64,
    pub zc: f64,
    pub radius: f64,
}

// A least and a greatest radius.
#[derive(Clone, Copy)]
pub struct Span {
    pub lo: f64,
    pub hi: f64,
}

// The direction of a cylinder's axis, as far as it is told apart.
#[derive(Clone, Copy)]
pub enum Axis {
    Axial,
    AlongX,
    AlongY,
    Neither,
}
