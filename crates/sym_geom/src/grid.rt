// The grid of the symbolic layout, its rules, and where blocks put their rows: numbers at scale 100.

/// How far two neighbouring columns are apart, and two tracks.
pub const PITCH: u16 = 500;

/// The height of a row of cells.
pub const ROW_HEIGHT: u16 = 5_000;

/// The width of a wire of a net, and of a supply's strap.
pub const WIRE_WIDTH: u16 = 200;

/// The width of the supplies' rails.
pub const RAIL_WIDTH: u16 = 600;

/// The width of a via's pads, which are squares.
pub const PAD_WIDTH: u16 = 200;

/// How much longer than its line a wire is at both ends.
pub const WIRE_OVERHANG: u16 = 100;

/// A rectangle is narrow if its width or its height is less.
pub const LEAST_WIDTH: u16 = 200;

/// Two shapes are near if their gap is less.
pub const LEAST_GAP: u16 = 200;

/// The middle of the rail of vss, above the foot of a row that isn't upside down.
pub const VSS_RAIL_Y: u16 = RAIL_WIDTH / 2;

/// The middle of the rail of vdd in such a row.
pub const VDD_RAIL_Y: u16 = ROW_HEIGHT - VSS_RAIL_Y;

/// Where the strip of vdd begins in such a row, which ends at `ROW_HEIGHT`; that of vss lies from 0 to `RAIL_WIDTH`.
pub const VDD_STRIP_Y: u16 = ROW_HEIGHT - RAIL_WIDTH;

/// How much a cell's rail may be short of the sides of the cell.
pub const RAIL_INSET: u16 = 200;

/// How far a cell's rail may reach over the sides of the cell, where only the rail of its own supply lies.
pub const RAIL_OVERHANG: u16 = RAIL_WIDTH / 2;

/// How far from the sides of its cell a shape is that is in no strip, so that cells may abut.
pub const CELL_MARGIN: u16 = LEAST_GAP / 2;

/// The middle of the strap of vss, where the rails begin.
pub const VSS_STRAP_X: u16 = PITCH;

/// The middle of the strap of vdd.
pub const VDD_STRAP_X: u16 = 2 * PITCH;

/// Where the rows of cells begin, and where the ports that aren't supplies stand.
pub const FIRST_CELL_X: u16 = 3 * PITCH;

/// The middle of the first track over a row.
pub const FIRST_TRACK_Y: u16 = ROW_HEIGHT + PITCH;
