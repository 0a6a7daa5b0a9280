// Metal that would be lost, and boxes that don't fit.
ghost use Rattle.std.specs.Prelude.{◌≡◌, ◌⊎◌, ◌≤◌, None, IfOk, IfErr, OnOk};
ghost use Rattle.sym_geom.specs.Rect.{HasReach};
ghost use Rattle.real_table.specs.Bounds.{IsProcessTable};
ghost use Rattle.real_boxes.specs.declared.error.ProcessError.TheVariants as error;
ghost use Rattle.real_boxes.specs.Bounds.{ReachAll};
ghost use Rattle.real_boxes.specs.Metals.{is_kept as is_kept_mark, is_layer_of as is_layer_of_metal, is_written as is_written_by, metal_box as box_of_metal, writes_on as entry_writes_on};
ghost use Rattle.real_boxes.specs.Refused.{IsLostRefusal, first_lost, first_unfit as first_unfit_of, fits as fits_grid, is_multiple as is_multiple_of};

use crate::boxes::{RealBox, layer_of, put_boxes};
use crate::error::ProcessError;
use crate::mark::Mark;
use real_table::{Entry, ProcessTable};
use std::alloc::{AllocError, Global};
use sym_geom::Rect;

/// Whether a line of the table writes a metal on a layer.
fn writes_on(table: &ProcessTable, metal: u8, layer: u64, entry: &Entry) -> bool
    ensures { result ≡ entry_writes_on table.now.entries metal layer entry.now }
{
    let Entry::Metal { metal: own, real } = entry else {
        return false;
    };
    if *own != metal {
        return false;
    }
    layer_of(table.entries.as_slice(), real.as_bytes()) as u64 == layer
}

/// Whether some line of the table writes a metal on a layer.
fn is_layer_of(table: &ProcessTable, metal: u8, layer: u64) -> bool
    ensures { result ≡ is_layer_of_metal table.now.entries metal layer }
{
    table
        .entries
        .as_slice()
        .iter()
        .any(|entry| writes_on(table, metal, layer, entry))
}

/// The first of these boxes on a layer where a metal is written.
pub fn metal_box(table: &ProcessTable, boxes: &[RealBox], metal: u8) -> Option<RealBox>
    ensures { result ≡ box_of_metal table.now.entries metal boxes.now }
{
    for one in boxes {
        if is_layer_of(table, metal, one.layer) {
            return Some(*one);
        }
    }
    None
}

/// Whether a metal, if it is one, has one of these boxes.
fn is_written(table: &ProcessTable, boxes: &[RealBox], metal: Option<u8>) -> bool
    ensures { result ≡ is_written_by table.now.entries boxes.now metal }
{
    match metal {
        Some(metal) => metal_box(table, boxes, metal).is_some(),
        None => true,
    }
}

/// Whether each metal that a mark shows is written.
fn is_kept(alloc: Global, table: &ProcessTable, mark: &Mark) -> Result<bool, AllocError>
    requires table { IsProcessTable table.now }
    requires reach { HasReach mark.now.core }
    ensures { IfOk result (λ kept. kept ≡ is_kept_mark table.now mark.now) }
{
    let mut boxes = Vec::new(alloc);
    put_boxes(&mut boxes, table, mark)?;
    Ok(is_written(table, &boxes, mark.metal) && is_written(table, &boxes, mark.above))
}

fn lost(alloc: Global, mark: &Mark) -> ProcessError
    ensures { (result ≡ error.Memory) ⊎ (result ≡ error.Lost mark.now.word) }
{
    match mark.word.copy(alloc) {
        Ok(word) => ProcessError::Lost(word),
        Err(_) => ProcessError::Memory,
    }
}

/// Refuses the first mark that shows metal which isn't written.
pub fn keep_metal(alloc: Global, table: &ProcessTable, marks: &[Mark]) -> Result<(), ProcessError>
    requires table { IsProcessTable table.now }
    requires reach { ReachAll marks.now }
    ensures kept { OnOk result (first_lost table.now marks.now ≡ None) }
    ensures refused { IfErr result (λ e. IsLostRefusal table.now marks.now e) }
{
    for mark in marks {
        if !is_kept(alloc, table, mark)? {
            return Err(lost(alloc, mark));
        }
    }
    Ok(())
}

/// Whether an edge lies on the grid.
fn is_multiple(grid: u32, edge: &i64) -> bool
    requires { 1 ≤ grid }
    ensures { result ≡ is_multiple_of grid edge.now }
{
    *edge % i64::from(grid) == 0
}

/// Whether all edges of a box lie on the grid, and it has an area.
fn fits(grid: u32, rect: &Rect) -> bool
    requires { 1 ≤ grid }
    ensures { result ≡ fits_grid grid rect.now }
{
    is_multiple(grid, &rect.x1)
        && (is_multiple(grid, &rect.y1)
            && (is_multiple(grid, &rect.x2)
                && (is_multiple(grid, &rect.y2) && (rect.x1 < rect.x2 && rect.y1 < rect.y2))))
}

/// The first box that doesn't fit.
pub fn first_unfit(grid: u32, boxes: &[RealBox]) -> Option<RealBox>
    requires { 1 ≤ grid }
    ensures { result ≡ first_unfit_of grid boxes.now }
{
    for one in boxes {
        if !fits(grid, &one.rect) {
            return Some(*one);
        }
    }
    None
}
