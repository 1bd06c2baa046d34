// A body beside a section.
use section::{Aabb, Sphere};
use walk::Cylinder;

#[derive(Clone, Copy)]
pub enum Body {
    Sphere(Sphere),
    Box(Aabb),
    Cylinder(Cylinder),
}
