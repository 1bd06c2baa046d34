// A cylinder's axis, the box of one along the spindle, and the band of one across it.
mod axis;
mod band;
mod shapes;

pub use axis::axis_of;
pub use band::{axial_box, exchanged};
pub use shapes::{Axis, Cylinder, RadialBand, Span};
