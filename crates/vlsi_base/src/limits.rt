// How long files may be.

/// The most bytes of a source, of a list of patterns, or of a cell's file.
pub const MOST_SOURCE_BYTES: usize = 1_048_576;

/// The most bytes of a netlist or a layout: a vst or an ap file, which tools write for one another.
pub const MOST_NETLIST_BYTES: usize = 268_435_456;
