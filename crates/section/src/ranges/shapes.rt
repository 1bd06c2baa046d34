// Ranges.

// Where numbers lie: none below lo, none above hi.
#[derive(Clone, Copy)]
pub struct Range {
    pub lo: f64,
    pub hi: f64,
}

// Where points lie along both axes: those of a box's sides, or of a segment.
#[derive(Clone, Copy)]
pub struct Sides {
    pub z: Range,
    pub r: Range,
}
