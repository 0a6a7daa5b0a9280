/// How many parentheses, ifs and cases may be open together.
pub const DEPTH: u32 = 256;

/// How many bits all ports and signals of a source may have.
pub const BITS: u64 = 1_048_576;

/// How many operators one expression may have, with those in its parentheses, and how many alternatives one choice.
pub const CHAIN: u32 = 16_384;
