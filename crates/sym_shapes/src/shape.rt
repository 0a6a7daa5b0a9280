ghost use Rattle.std.specs.Prelude.{◌≡◌, ◌↔◌, IsTrue};
ghost use Rattle.std.specs.Option.{option_copied};
ghost use Rattle.sym_geom.specs.Rect.{Meet};
ghost use Rattle.sym_shapes.specs.Marks.{mark_of};
ghost use Rattle.sym_shapes.specs.View.{view_of};

use crate::marks::{Kind, Mark, Sign};
use std::marker::Model;
use sym_geom::{Rect, touches};
use vlsi_base::{Name, Text};

/// A rectangle of metal that a layout shows.
#[derive(Drop)]
pub struct Shape {
    metal: u8,
    rect: Rect,
    owner: Option<Text>,
    line: u32,
    name: Option<Name>,
}

impl Model for Shape {
    ghost use Rattle.sym_shapes.specs.Shape.{Shape as Meant};

    ghost Value = { Meant };

    ghost view = { λ s. record { metal = s.metal; rect = s.rect; owner = s.owner; line = s.line; name = s.name } };
}

impl Shape {
    /// A rectangle of a metal, from 1 to 6: the instance that it belongs to, if any, the line there that gives it, and its
    /// name where it is a connector. Takes no memory.
    pub fn new(metal: u8, rect: Rect, owner: Option<Text>, line: u32, name: Option<Name>) -> Self
        ensures { result ≡ record { metal = metal; rect = rect; owner = owner; line = line; name = name } }
    {
        Shape {
            metal,
            rect,
            owner,
            line,
            name,
        }
    }

    /// Where it lies. Takes no memory.
    pub fn rect(&self) -> Rect
        ensures { result ≡ self.now.rect }
    {
        self.rect
    }

    /// The mark of a kind that it has. Takes no memory.
    pub(crate) fn mark(&self, kind: Kind) -> Option<Mark<'_>>
        ensures { view_of result ≡ mark_of kind self.now }
    {
        let owner = match &self.owner {
            Some(owner) => Some(owner.as_bytes()),
            None => None,
        };
        match kind {
            Kind::Line => Some(Mark {
                owner,
                sign: Sign::Line(self.line),
            }),
            Kind::Name => match &self.name {
                Some(name) => Some(Mark {
                    owner,
                    sign: Sign::Connector(name.text.as_bytes(), name.bit),
                }),
                None => None,
            },
        }
    }

    /// Its name where it is a connector. Takes no memory.
    pub fn name(&self) -> Option<&Name>
        ensures { option_copied result ≡ self.now.name }
    {
        self.name.as_ref()
    }

    /// The instance that it belongs to; none where it is drawn. Takes no memory.
    pub fn owner(&self) -> Option<&Text>
        ensures { option_copied result ≡ self.now.owner }
    {
        self.owner.as_ref()
    }

    /// The number of the line that gives it, from 0. Takes no memory.
    pub fn line(&self) -> u32
        ensures { result ≡ self.now.line }
    {
        self.line
    }

    /// Its metal. Takes no memory.
    pub fn metal(&self) -> u8
        ensures { result ≡ self.now.metal }
    {
        self.metal
    }
}

/// Whether the two meet on one metal.
pub fn touching(a: &Shape, b: &Shape) -> bool
    ensures { IsTrue result ↔ ((a.now.metal ≡ b.now.metal) × Meet a.now.rect b.now.rect) }
{
    a.metal == b.metal && touches(a.rect, b.rect)
}
