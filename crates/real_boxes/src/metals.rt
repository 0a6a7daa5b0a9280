// The metals of a layout: the shapes that are shown, the boxes in which they are written, and that these meet exactly where those touch.
ghost use Rattle.std.specs.Prelude.{◌≡◌, ◌↔◌, ◌++◌, ◌*◌, ◌<◌, ◌≤◌, ◌≤ℤ◌, ◌^◌, pos, neg_ℤ, All, None, IfErr, IfOk, IsTrue, MatchOption, OnOk, length};
ghost use Rattle.sym_geom.specs.Rect.{HasReach, Meet};
ghost use Rattle.sym_near.specs.Related.{AreRelated, shape_at};
ghost use Rattle.sym_near.specs.declared.near.Relation.TheVariants as relation;
ghost use Rattle.real_table.specs.declared.table.TheConstants.{MOST_LENGTH};
ghost use Rattle.real_table.specs.Bounds.{IsEntryWithin, IsLength, IsProcessTable};
ghost use Rattle.real_boxes.specs.Bounds.{ReachAll};
ghost use Rattle.real_boxes.specs.Metals.{AreWithinGap, IsEntryGrownWithin, IsFirstUnlike, IsJoinedRefusal, IsMetalRefusal, IsMostAside, IsPartedRefusal, MeetAsShapes, NoneUnlike, ShowsPair, lengthened as lengthened_rect, mark_boxes, mark_shapes, metal_boxes as boxes_of_metals, metal_shapes as shapes_of_metals, on_metal, padded, rect_of, shown_rect as rect_shown, written_rect as rect_written, written_shapes};
ghost use Rattle.real_boxes.specs.Refused.{first_lost};

use crate::boxes::{RealBox, put_boxes};
use crate::error::ProcessError;
use crate::judging::metal_box;
use crate::mark::Mark;
use real_table::{Entry, ProcessTable};
use std::alloc::{AllocError, Global};
use sym_geom::{PAD_WIDTH, Rect, WIRE_OVERHANG, touches};
use sym_near::{Pair, near_pairs};
use sym_shapes::Shape;

/// A wire with its overhang at the ends.
fn lengthened(upright: bool, core: &Rect) -> Rect
    requires { HasReach core.now }
    ensures { result ≡ lengthened_rect upright core.now }
{
    let overhang = i64::from(WIRE_OVERHANG);
    if upright {
        Rect {
            x1: core.x1,
            y1: core.y1 - overhang,
            x2: core.x2,
            y2: core.y2 + overhang,
        }
    } else {
        Rect {
            x1: core.x1 - overhang,
            y1: core.y1,
            x2: core.x2 + overhang,
            y2: core.y2,
        }
    }
}

/// The square of a via's pads about its point.
fn pad(core: &Rect) -> Rect
    requires { HasReach core.now }
    ensures { result ≡ padded core.now }
{
    let half = i64::from(PAD_WIDTH) / 2;
    Rect {
        x1: core.x1 - half,
        y1: core.y1 - half,
        x2: core.x2 + half,
        y2: core.y2 + half,
    }
}

/// What a mark shows on each of its metals.
fn shown_rect(mark: &Mark) -> Rect
    requires { HasReach mark.now.core }
    ensures { result ≡ rect_shown mark.now }
{
    match mark.above {
        Some(_) => pad(&mark.core),
        None => lengthened(mark.upright, &mark.core),
    }
}

/// Puts a shape of a metal, if it is one, behind those that are there.
fn put_on(shapes: &mut Vec<Shape>, metal: Option<u8>, rect: Rect) -> Result<(), AllocError>
    ensures { OnOk result (shapes.new.items ≡ shapes.old.items ++ on_metal metal rect) }
{
    let Some(metal) = metal else {
        return Ok(());
    };
    shapes.push(Shape::new(metal, rect, None, 0, None))?;
    Ok(())
}

/// Puts what a mark shows on metals behind what is there.
fn put_shapes(shapes: &mut Vec<Shape>, mark: &Mark) -> Result<(), AllocError>
    requires { HasReach mark.now.core }
    ensures { OnOk result (shapes.new.items ≡ shapes.old.items ++ mark_shapes mark.now) }
{
    let rect = shown_rect(mark);
    put_on(shapes, mark.metal, rect)?;
    put_on(shapes, mark.above, rect)
}

/// What marks show on metals, in their order.
fn metal_shapes(alloc: Global, marks: &[Mark]) -> Result<Vec<Shape>, AllocError>
    requires { ReachAll marks.now }
    ensures { IfOk result (λ shapes. shapes.items ≡ shapes_of_metals marks.now) }
{
    let mut shapes = Vec::new(alloc);
    for mark in marks {
        put_shapes(&mut shapes, mark)?;
    }
    Ok(shapes)
}

fn nowhere() -> Rect
    ensures { result ≡ rect_of None }
{
    Rect {
        x1: 0,
        y1: 0,
        x2: 0,
        y2: 0,
    }
}

/// Where a metal, if it is one, is written.
fn written_rect(table: &ProcessTable, boxes: &[RealBox], metal: Option<u8>) -> Rect
    ensures { result ≡ rect_written table.now.entries boxes.now metal }
{
    let Some(metal) = metal else {
        return nowhere();
    };
    match metal_box(table, boxes, metal) {
        Some(one) => one.rect,
        None => nowhere(),
    }
}

/// Puts the boxes of the metals of a mark, which has these boxes, behind those that are there.
fn put_written(
    shapes: &mut Vec<Shape>,
    table: &ProcessTable,
    boxes: &[RealBox],
    mark: &Mark,
) -> Result<(), AllocError>
    ensures { OnOk result (shapes.new.items ≡ shapes.old.items ++ written_shapes table.now.entries boxes.now mark.now) }
{
    let lower = written_rect(table, boxes, mark.metal);
    put_on(shapes, mark.metal, lower)?;
    let upper = written_rect(table, boxes, mark.above);
    put_on(shapes, mark.above, upper)
}

/// Puts the boxes of the metals of a mark behind those that are there.
fn put_metals(
    alloc: Global,
    shapes: &mut Vec<Shape>,
    table: &ProcessTable,
    mark: &Mark,
) -> Result<(), AllocError>
    requires table { IsProcessTable table.now }
    requires reach { HasReach mark.now.core }
    ensures { OnOk result (shapes.new.items ≡ shapes.old.items ++ written_shapes table.now.entries (mark_boxes table.now mark.now) mark.now) }
{
    let mut boxes = Vec::new(alloc);
    put_boxes(&mut boxes, table, mark)?;
    put_written(shapes, table, &boxes, mark)
}

/// The boxes in which the metals of marks are written, in the order of what is shown.
fn metal_boxes(
    alloc: Global,
    table: &ProcessTable,
    marks: &[Mark],
) -> Result<Vec<Shape>, AllocError>
    requires table { IsProcessTable table.now }
    requires reach { ReachAll marks.now }
    ensures { IfOk result (λ boxes. boxes.items ≡ boxes_of_metals table.now marks.now) }
{
    let mut shapes = Vec::new(alloc);
    for mark in marks {
        put_metals(alloc, &mut shapes, table, mark)?;
    }
    Ok(shapes)
}

/// The size of a length.
fn size(length: &i64) -> u32
    requires { IsLength length.now }
    ensures low { neg_ℤ (pos result) ≤ℤ length.now }
    ensures high { length.now ≤ℤ pos result }
    ensures most { result ≤ MOST_LENGTH }
{
    if *length < 0 {
        (-*length) as u32
    } else {
        *length as u32
    }
}

/// How far, at most, a line of the table moves an edge.
fn entry_reach(entry: &Entry) -> u32
    requires { IsEntryWithin entry.now }
    ensures within { IsEntryGrownWithin result entry.now }
    ensures most { result ≤ 4 * MOST_LENGTH }
{
    let Entry::Rule(rule) = entry else {
        return 0;
    };
    let growth = &rule.growth;
    size(&growth.along) + size(&growth.across) + size(&growth.x) + size(&growth.y)
}

fn larger(a: u32, b: u32) -> u32
    requires first_most { a ≤ 4 * MOST_LENGTH }
    requires second_most { b ≤ 4 * MOST_LENGTH }
    ensures first { a ≤ result }
    ensures second { b ≤ result }
    ensures most { result ≤ 4 * MOST_LENGTH }
{
    if a < b { b } else { a }
}

/// How far, at most, lines of the table move an edge.
fn farthest(entries: &[Entry]) -> u32
    requires { All IsEntryWithin entries.now }
    ensures within { All (λ e. IsEntryGrownWithin result e) entries.now }
    ensures most { result ≤ 4 * MOST_LENGTH }
{
    let mut most = 0;
    for entry in entries {
        most = larger(most, entry_reach(entry));
    }
    most
}

/// Whether the rectangles of a pair meet.
fn meet(shapes: &[Shape], pair: &Pair) -> bool
    requires first { pair.now.first < length shapes.now }
    requires second { pair.now.second < length shapes.now }
    ensures { IsTrue result ↔ Meet (shape_at shapes.now pair.now.first).rect (shape_at shapes.now pair.now.second).rect }
{
    let one = &shapes[pair.first as usize];
    let other = &shapes[pair.second as usize];
    touches(one.rect(), other.rect())
}

/// The first of the pairs with this gap at whose places the others meet.
fn first_meeting(these: &[Shape], others: &[Shape], gap: u32, near: &[Pair]) -> Option<Pair>
    requires same { length others.now ≡ length these.now }
    requires near { AreRelated these.now (relation.Near gap) near.now }
    requires within { AreWithinGap these.now others.now gap }
    ensures { MatchOption result (NoneUnlike these.now others.now) (λ p. IsFirstUnlike these.now others.now p.first p.second) }
{
    for pair in near {
        if meet(others, pair) {
            return Some(*pair);
        }
    }
    None
}

/// The first two of these of one metal that don't meet, though the others at their places do. Takes memory for a few entries each, and
/// for the pairs with this gap.
fn first_unlike(
    alloc: Global,
    these: &[Shape],
    others: &[Shape],
    gap: u32,
) -> Result<Option<Pair>, AllocError>
    requires few { length these.now < 2 ^ 32 }
    requires same { length others.now ≡ length these.now }
    requires within { AreWithinGap these.now others.now gap }
    ensures { IfOk result (λ found. MatchOption found (NoneUnlike these.now others.now) (λ p. IsFirstUnlike these.now others.now p.first p.second)) }
{
    let pairs = near_pairs(alloc, these, gap)?;
    Ok(first_meeting(these, others, gap, &pairs.near))
}

/// The metal and the rectangles of a pair of shapes.
fn shown_pair(shapes: &[Shape], pair: &Pair) -> (u8, Rect, Rect)
    requires first { pair.now.first < length shapes.now }
    requires second { pair.now.second < length shapes.now }
    ensures { ShowsPair shapes.now pair.now.first pair.now.second result.0 result.1 result.2 }
{
    let one = &shapes[pair.first as usize];
    let other = &shapes[pair.second as usize];
    (one.metal(), one.rect(), other.rect())
}

/// Refuses the first two shapes of one metal that don't touch, but whose boxes meet.
fn keep_shapes_apart(
    alloc: Global,
    shapes: &[Shape],
    boxes: &[Shape],
    gap: u32,
) -> Result<(), ProcessError>
    requires few { length shapes.now < 2 ^ 32 }
    requires same { length boxes.now ≡ length shapes.now }
    requires within { AreWithinGap shapes.now boxes.now gap }
    ensures apart { OnOk result (NoneUnlike shapes.now boxes.now) }
    ensures refused { IfErr result (λ e. IsJoinedRefusal shapes.now boxes.now e) }
{
    let Some(pair) = first_unlike(alloc, shapes, boxes, gap)? else {
        return Ok(());
    };
    let (metal, a, b) = shown_pair(shapes, &pair);
    Err(ProcessError::Joined { metal, a, b })
}

/// Refuses the first two shapes of one metal that touch, and whose boxes don't meet.
fn keep_shapes_together(
    alloc: Global,
    shapes: &[Shape],
    boxes: &[Shape],
    gap: u32,
) -> Result<(), ProcessError>
    requires few { length boxes.now < 2 ^ 32 }
    requires same { length shapes.now ≡ length boxes.now }
    requires within { AreWithinGap boxes.now shapes.now gap }
    ensures together { OnOk result (NoneUnlike boxes.now shapes.now) }
    ensures refused { IfErr result (λ e. IsPartedRefusal shapes.now boxes.now e) }
{
    let Some(pair) = first_unlike(alloc, boxes, shapes, gap)? else {
        return Ok(());
    };
    let (metal, a, b) = shown_pair(shapes, &pair);
    Err(ProcessError::Parted { metal, a, b })
}

/// How far, at most, an edge of a metal's box lies from that of its shape, in real units.
fn most_aside(table: &ProcessTable) -> u32
    requires { IsProcessTable table.now }
    ensures aside { IsMostAside table.now result }
    ensures least { 1 ≤ table.now.head.scale }
    ensures most { result ≤ 5 * MOST_LENGTH }
{
    table.head.scale * u32::from(WIRE_OVERHANG) + farthest(table.entries.as_slice())
}

/// Refuses marks of which boxes of one metal don't meet exactly where the shapes touch. Takes memory for a few entries each, and for the
/// pairs that are as near as some box lies beside its shape.
pub fn keep_joints(alloc: Global, table: &ProcessTable, marks: &[Mark]) -> Result<(), ProcessError>
    requires table { IsProcessTable table.now }
    requires reach { ReachAll marks.now }
    requires kept { first_lost table.now marks.now ≡ None }
    requires few { length (shapes_of_metals marks.now) < 2 ^ 32 }
    ensures meet { OnOk result (MeetAsShapes (shapes_of_metals marks.now) (boxes_of_metals table.now marks.now)) }
    ensures refused { IfErr result (λ e. IsMetalRefusal (shapes_of_metals marks.now) (boxes_of_metals table.now marks.now) e) }
{
    let shapes = metal_shapes(alloc, marks)?;
    let boxes = metal_boxes(alloc, table, marks)?;
    let aside = most_aside(table);
    keep_shapes_apart(alloc, &shapes, &boxes, 2 * aside / table.head.scale + 1)?;
    keep_shapes_together(alloc, &shapes, &boxes, 2 * aside + 1)?;
    Ok(())
}
