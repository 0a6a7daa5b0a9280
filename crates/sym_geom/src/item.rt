// The lines of a figure.
ghost use Rattle.std.specs.Prelude.{◌≡◌, ◌++◌, ◌∷◌, [], OnOk, OnErr};

use crate::{Layer, Transform};
use std::alloc::{AllocError, Global};
use std::marker::Model;
use vlsi_base::{Name, Text};

/// Which way a segment runs.
#[derive(Clone, Copy, PartialEq, Eq)]
pub enum Direction {
    Up,
    Down,
    Left,
    Right,
}

/// The side of its figure that a connector faces.
#[derive(Clone, Copy, PartialEq, Eq)]
pub enum Side {
    North,
    South,
    East,
    West,
}

/// A piece of wire: an S line. Its ends may stand in either order.
#[derive(Drop)]
pub struct Segment {
    pub x1: i64,
    pub y1: i64,
    pub x2: i64,
    pub y2: i64,
    pub width: i64,
    /// The name of its net, or none for `*`. On CALU1 to CALU9 a name makes it a connector.
    pub name: Option<Name>,
    pub direction: Direction,
    pub layer: Layer,
}

/// A port of a figure, or a pin of a cell: a C line.
#[derive(Drop)]
pub struct Connector {
    pub x: i64,
    pub y: i64,
    pub width: i64,
    /// Its name, or none for `*`, which makes it a plain square.
    pub name: Option<Name>,
    pub index: i64,
    pub side: Side,
    pub layer: Layer,
}

/// What a V line stands for.
#[derive(Drop)]
pub enum Contact {
    /// CONT_VIA, which joins the metals 1 and 2.
    Via1,
    /// CONT_VIA2, which joins the metals 2 and 3.
    Via2,
    /// CONT_VIA3, which joins the metals 3 and 4.
    Via3,
    /// CONT_VIA4, which joins the metals 4 and 5.
    Via4,
    /// CONT_VIA5, which joins the metals 5 and 6.
    Via5,
    /// Any other contact, by its word, which begins with CONT_ or C_X_. It joins no metals.
    Other(Text),
}

/// A contact at a point: a V line.
#[derive(Drop)]
pub struct Via {
    pub x: i64,
    pub y: i64,
    pub contact: Contact,
    /// The name of its net, or none for `*`.
    pub name: Option<Name>,
}

/// A cell that stands in the figure: an I line. The lower left corner of its box, once it is turned, lies at `x`, `y`.
#[derive(Drop)]
pub struct Instance {
    pub x: i64,
    pub y: i64,
    pub model: Text,
    pub name: Text,
    pub transform: Transform,
}

/// A point of the figure that has a name: an R line. It shows no shape.
#[derive(Drop)]
pub struct Reference {
    pub x: i64,
    pub y: i64,
    /// What the point is for: an identifier.
    pub word: Text,
    /// Any text without a comma.
    pub name: Text,
}

/// One line of a figure.
#[derive(Drop)]
pub enum Item {
    Segment(Segment),
    Connector(Connector),
    Via(Via),
    Instance(Instance),
    Reference(Reference),
    /// Any text: a B line. It shows no shape.
    Remark(Text),
}

/// The lines of a figure in file order.
#[derive(Drop)]
pub struct Items {
    items: Vec<Item>,
}

impl Model for Items {
    ghost use Rattle.std.specs.Prelude.{List};
    ghost use Rattle.sym_geom.specs.declared.item.Item.{Item};

    ghost Value = { List Item };

    ghost view = { λ a. a.items.items };
}

impl Items {
    /// These lines. Takes no memory.
    pub fn new(items: Vec<Item>) -> Self
        ensures { result ≡ items.items }
    {
        Items { items }
    }

    /// The lines as a slice.
    pub fn as_slice(&self) -> &[Item]
        ensures { result.now ≡ self.now }
    {
        &self.items
    }

    /// The lines, given back. Takes no memory.
    pub fn into_vec(self) -> Vec<Item>
        ensures { result.items ≡ self }
    {
        let Items { items } = self;
        items
    }

    /// Puts a line behind those that are there.
    pub fn push(&mut self, item: Item) -> Result<(), AllocError>
        ensures ok { OnOk result (self.new ≡ self.old ++ item ∷ []) }
        ensures err { OnErr result (self.new ≡ self.old) }
    {
        self.items.push(item)?;
        Ok(())
    }
}
