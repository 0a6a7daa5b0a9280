// The checks of a cell, and what they come to.
ghost use Rattle.std.specs.Prelude.{◌≡◌};
ghost use Rattle.cell_checks.specs.Verdict.{check_number};

/// The most columns that a mappable cell may be wide.
pub const MOST_COLUMNS: u64 = 32;

/// A check of a cell's layout, in the order in which they are made.
#[derive(Clone, Copy, PartialEq, Eq)]
pub enum Check {
    /// The pins with vdd and vss are the connectors of the layout.
    Connectors,
    /// The box starts at 0,0, is as high as a row, and a positive number of columns wide.
    Box,
    /// One connector of each supply holds its rail.
    Rails,
    /// Each signal pin has an access node.
    Access,
    /// No two pins of different names are joined.
    PinsApart,
    /// Each shape of metal 1 lies within the box, or within the strip of a supply.
    WithinBox,
    /// Each shape of metal 1 that isn't joined to a supply is far enough from its strip.
    RailGaps,
    /// No two signal pins are reached at one x.
    Columns,
}

impl Check {
    /// Its number among the causes that refuse a cell, from 3 to 10. Takes no memory.
    pub fn number(self) -> u8
        ensures { result ≡ check_number self }
    {
        match self {
            Check::Connectors => 3,
            Check::Box => 4,
            Check::Rails => 5,
            Check::Access => 6,
            Check::PinsApart => 7,
            Check::WithinBox => 8,
            Check::RailGaps => 9,
            Check::Columns => 10,
        }
    }
}

/// What the checks of a cell come to.
#[derive(Clone, Copy, PartialEq, Eq)]
pub enum CellVerdict {
    /// It passes all of them.
    Passes,
    /// The first check that it fails.
    Fails(Check),
    /// It passes all of them, but is mappable and wider than `MOST_COLUMNS`: how many columns.
    TooWide(u64),
}
