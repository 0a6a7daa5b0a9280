/// The most bytes of an identifier.
pub const MOST_NAME_BYTES: usize = 64;

/// The greatest absolute value of a coordinate, and the greatest width, at scale 100.
pub const MOST_COORDINATE: u64 = 1_000_000_000_000;
