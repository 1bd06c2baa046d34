// The settings of the walk: the agreement tolerance in mm, the most boxes, the intervals between samples.
#[derive(Clone, Copy)]
pub struct Settings {
    pub tolerance: f64,
    pub most: u32,
    pub intervals: u32,
}
