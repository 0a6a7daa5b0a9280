// What a table of a process says.
use vlsi_base::{Listed, Text};

/// The most real units by which a box grows or moves, that a contact is wide, or that boxes are apart.
pub const MOST_LENGTH: u32 = 1_000_000;

/// The most that each number of the first line may be.
pub const MOST_UNIT: u32 = 1_000;

/// The most that a number of a layer in a GDSII file may be.
pub const MOST_GDS: u32 = 65_535;

/// The highest metal.
pub const MOST_METAL: u32 = 6;

/// The units of a process.
#[derive(Clone, Copy)]
pub struct Head {
    /// How many real units a hundredth of a micrometre is: from 1 to `MOST_UNIT`, as are the other two.
    pub unit: u32,
    /// How many real units a hundredth of a symbolic unit is.
    pub scale: u32,
    /// Of how many real units each edge has to be a multiple.
    pub grid: u32,
}

/// How a box comes from what is drawn, in real units, each at most `MOST_LENGTH` in absolute value.
#[derive(Clone, Copy)]
pub struct Growth {
    /// How far the edges at the ends of a segment move outward, and all edges of a contact.
    pub along: i64,
    /// How far those along its sides do, and all edges of a contact.
    pub across: i64,
    /// How far the box then moves to the right.
    pub x: i64,
    /// And up.
    pub y: i64,
}

/// A line `segment` or `contact`.
#[derive(Drop)]
pub struct Rule {
    /// The symbolic layer, or the contact.
    pub word: Text,
    /// The real layer of the box.
    pub real: Text,
    pub growth: Growth,
}

/// What a line says.
#[derive(Drop)]
pub enum Entry {
    /// What is drawn on a layer, or a contact, has a box.
    Rule(Rule),
    /// A metal, from 1 to `MOST_METAL`, is written on a real layer.
    Metal { metal: u8, real: Text },
    /// Boxes on a real layer that don't meet are at least so far apart.
    Space { real: Text, gap: u32 },
    /// Named connectors on a symbolic layer have a text on a real one.
    Label { layer: Text, real: Text },
    /// Nothing that concerns boxes.
    Nothing,
}

/// A table of a process.
#[derive(Drop)]
pub struct ProcessTable {
    pub head: Head,
    /// What its further lines say, in their order.
    pub entries: Listed<Entry>,
}
