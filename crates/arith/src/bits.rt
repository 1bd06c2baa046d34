// The bits of an f64 with no sign: the exponent times 2^52, and below it the significand's lower 52.
pub const T52: u64 = 0x10_0000_0000_0000;

pub const T53: u64 = 0x20_0000_0000_0000;

pub const T54: u64 = 0x40_0000_0000_0000;

pub const T63: u64 = 0x8000_0000_0000_0000;

// of infinity
pub const INF: u64 = 0x7ff0_0000_0000_0000;
