// The boxes of what is drawn.
ghost use Rattle.std.specs.Prelude.{◌≡◌, ◌++◌, ◌≤◌, ◌+ℤ◌, ◌-ℤ◌, ◌*ℤ◌, pos, IfOk, OnOk, All, length};
ghost use Rattle.sym_geom.specs.Rect.{HasReach, IsReach};
ghost use Rattle.real_table.specs.declared.table.TheConstants.{MOST_UNIT};
ghost use Rattle.real_table.specs.Bounds.{IsEntryWithin, IsGrowth, IsLength, IsProcessTable};
ghost use Rattle.real_boxes.specs.Bounds.{AreBoxes, HasEdges, IsEdge, ReachAll};
ghost use Rattle.real_boxes.specs.Boxes.{across_x, across_y, box_rect as box_of_core, boxes_by, boxes_of as boxes_of_marks, entry_boxes, layer_of as layer_named, names_layer as names_real};

use crate::mark::Mark;
use real_table::{Entry, Growth, ProcessTable};
use s2r_cif::scaled;
use std::alloc::{AllocError, Global};
use sym_geom::Rect;

/// A box on a real layer.
#[derive(Clone, Copy)]
pub struct RealBox {
    /// The real layer: the place, from 0, of the first line of the table that has a box on it.
    pub layer: u64,
    /// Where it lies, in real units.
    pub rect: Rect,
}

/// Whether what a line of the table says is a box on this real layer.
fn names_layer(real: &[u8], entry: &Entry) -> bool
    ensures { result ≡ names_real real.now entry.now }
{
    match entry {
        Entry::Rule(rule) => rule.real.as_bytes() == real,
        _ => false,
    }
}

/// The number of a real layer: how many lines stand before the first that has a box on it.
pub fn layer_of(entries: &[Entry], real: &[u8]) -> usize
    ensures value { result ≡ layer_named entries.now real.now }
    ensures within { result ≤ length entries.now }
{
    entries
        .iter()
        .take_while(|entry| !names_layer(real, *entry))
        .count()
}

/// A coordinate times the scale, less a length, and moved.
fn low_edge(scale: u32, c: &i64, out: &i64, by: &i64) -> i64
    requires scale { scale ≤ MOST_UNIT }
    requires reach { IsReach c.now }
    requires out { IsLength out.now }
    requires by { IsLength by.now }
    ensures value { result ≡ ((pos scale *ℤ c.now) -ℤ out.now) +ℤ by.now }
    ensures edge { IsEdge result }
{
    scaled(scale, c) - *out + *by
}

/// A coordinate times the scale, and a length, and moved.
fn high_edge(scale: u32, c: &i64, out: &i64, by: &i64) -> i64
    requires scale { scale ≤ MOST_UNIT }
    requires reach { IsReach c.now }
    requires out { IsLength out.now }
    requires by { IsLength by.now }
    ensures value { result ≡ ((pos scale *ℤ c.now) +ℤ out.now) +ℤ by.now }
    ensures edge { IsEdge result }
{
    scaled(scale, c) + *out + *by
}

/// How far a box grows to the left and the right, and how far down and up.
fn growths(growth: &Growth, upright: bool) -> (i64, i64)
    requires { IsGrowth growth.now }
    ensures x { result.0 ≡ across_x growth.now upright }
    ensures y { result.1 ≡ across_y growth.now upright }
    ensures x_within { IsLength result.0 }
    ensures y_within { IsLength result.1 }
{
    if upright {
        (growth.across, growth.along)
    } else {
        (growth.along, growth.across)
    }
}

/// The box of a rectangle that is drawn.
fn box_rect(scale: u32, growth: &Growth, upright: bool, core: &Rect) -> Rect
    requires scale { scale ≤ MOST_UNIT }
    requires growth { IsGrowth growth.now }
    requires reach { HasReach core.now }
    ensures value { result ≡ box_of_core scale growth.now upright core.now }
    ensures edges { HasEdges result }
{
    let (x, y) = growths(growth, upright);
    Rect {
        x1: low_edge(scale, &core.x1, &x, &growth.x),
        y1: low_edge(scale, &core.y1, &y, &growth.y),
        x2: high_edge(scale, &core.x2, &x, &growth.x),
        y2: high_edge(scale, &core.y2, &y, &growth.y),
    }
}

/// Puts the box that a line of the table gives behind those that are there.
fn put_box(
    boxes: &mut Vec<RealBox>,
    table: &ProcessTable,
    entry: &Entry,
    mark: &Mark,
) -> Result<(), AllocError>
    requires table { IsProcessTable table.now }
    requires entry { IsEntryWithin entry.now }
    requires reach { HasReach mark.now.core }
    requires old_edges { AreBoxes boxes.old.items }
    ensures value { OnOk result (boxes.new.items ≡ boxes.old.items ++ entry_boxes table.now.entries table.now.head.scale entry.now mark.now) }
    ensures edges { OnOk result (AreBoxes boxes.new.items) }
{
    let Entry::Rule(rule) = entry else {
        return Ok(());
    };
    if !rule.word.is_same(&mark.word) {
        return Ok(());
    }
    let layer = layer_of(table.entries.as_slice(), rule.real.as_bytes()) as u64;
    let rect = box_rect(table.head.scale, &rule.growth, mark.upright, &mark.core);
    boxes.push(RealBox { layer, rect })?;
    Ok(())
}

/// Puts the boxes of what is drawn behind those that are there.
pub fn put_boxes(
    boxes: &mut Vec<RealBox>,
    table: &ProcessTable,
    mark: &Mark,
) -> Result<(), AllocError>
    requires table { IsProcessTable table.now }
    requires reach { HasReach mark.now.core }
    requires old_edges { AreBoxes boxes.old.items }
    ensures value { OnOk result (boxes.new.items ≡ boxes.old.items ++ boxes_by table.now.entries table.now.head.scale table.now.entries mark.now) }
    ensures edges { OnOk result (AreBoxes boxes.new.items) }
{
    for entry in table.entries.as_slice() {
        put_box(boxes, table, entry, mark)?;
    }
    Ok(())
}

/// The boxes of all that is drawn, in its order.
pub fn boxes_of(
    alloc: Global,
    table: &ProcessTable,
    marks: &[Mark],
) -> Result<Vec<RealBox>, AllocError>
    requires table { IsProcessTable table.now }
    requires reach { ReachAll marks.now }
    ensures value { IfOk result (λ boxes. boxes.items ≡ boxes_of_marks table.now.entries table.now.head.scale marks.now) }
    ensures edges { IfOk result (λ boxes. AreBoxes boxes.items) }
{
    let mut boxes = Vec::new(alloc);
    for mark in marks {
        put_boxes(&mut boxes, table, mark)?;
    }
    Ok(boxes)
}
