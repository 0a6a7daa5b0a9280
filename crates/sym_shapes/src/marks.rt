// Shapes that one line gives, and connectors of one name.
ghost use Rattle.std.specs.Prelude.{◌≡◌, ◌+◌, ◌<◌, ◌^◌, length, OnOk};
ghost use Rattle.sym_shapes.specs.Joints.{Grows};
ghost use Rattle.sym_shapes.specs.Marks.{CoversMarks};
ghost use Rattle.sym_shapes.specs.Seen.{Seen, place_of};

use crate::Shape;
use crate::forest::Forest;
use std::alloc::{AllocError, Global};
use std::collections::HashMap;

/// What may link two shapes of one owner, wherever they lie.
#[derive(Clone, Copy)]
pub enum Kind {
    /// One line gives both.
    Line,
    /// They are connectors of one name.
    Name,
}

/// The line or the name itself.
#[derive(Clone, Copy, PartialEq, Eq, Hash)]
pub enum Sign<'a> {
    Line(u32),
    Connector(&'a [u8], Option<u32>),
}

/// What shapes that are so linked have in common.
#[derive(Clone, Copy, PartialEq, Eq, Hash)]
pub struct Mark<'a> {
    pub owner: Option<&'a [u8]>,
    pub sign: Sign<'a>,
}

/// Puts a shape into one group with the last one before it that has the same mark.
fn join_mark<'a>(
    seen: &mut HashMap<Mark<'a>, u32>,
    forest: &mut Forest,
    shapes: &'a [Shape],
    kind: Kind,
    place: u32,
) -> Result<(), AllocError>
    requires count { length forest.old.groups ≡ length shapes.now }
    requires within { place < length shapes.now }
    requires seen { Seen shapes.now kind forest.old.groups (place_of seen.old) place }
    ensures grows { OnOk result (Grows shapes.now forest.old forest.new) }
    ensures seen { OnOk result (Seen shapes.now kind forest.new.groups (place_of seen.new) (place + 1)) }
{
    let Some(mark) = shapes[place as usize].mark(kind) else {
        return Ok(());
    };
    if let Some(before) = seen.insert(mark, place)? {
        forest.link(before, place)?;
    }
    Ok(())
}

/// Puts each two shapes of one mark into one group. Takes memory for a mark a shape.
pub fn join_marked(
    alloc: Global,
    forest: &mut Forest,
    shapes: &[Shape],
    kind: Kind,
) -> Result<(), AllocError>
    requires room { length shapes.now < 2 ^ 32 }
    requires count { length forest.old.groups ≡ length shapes.now }
    ensures grows { OnOk result (Grows shapes.now forest.old forest.new) }
    ensures covers { OnOk result (CoversMarks shapes.now kind forest.new.groups) }
{
    let mut seen = HashMap::new(alloc);
    for place in 0..shapes.len() {
        join_mark(&mut seen, forest, shapes, kind, place as u32)?;
    }
    Ok(())
}
