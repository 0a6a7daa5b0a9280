// The columns in which the pins of a cell are reached.
ghost use Rattle.std.specs.Prelude.{ℕ, ◌≡◌, ◌↔◌, ◌++◌, ◌*◌, ◌≤◌, ◌<◌, ◌+ℤ◌, ◌≤ℤ◌, pos, length, filter, All, IfOk, OnOk, IsTrue};
ghost use Rattle.vlsi_base.specs.Names.{comes_before};
ghost use Rattle.sym_geom.specs.Rect.{square};
ghost use Rattle.sym_shapes.specs.Shape.{drawn};
ghost use Rattle.cell_model.specs.Cell.{cell_width};
ghost use Rattle.cell_model.specs.Access.{is_access_node, grid_lines};
ghost use Rattle.cell_model.specs.Usable.{IsFormed};
ghost use Rattle.cell_checks.specs.Checks.{StandsInRow};
ghost use Rattle.cell_checks.specs.Nodes.{column_nodes, node_columns, IsFront, HoldsColumn, IsReachedAt, AreReachedAt};

use crate::row::width_of;
use crate::shapes::{has_rail, reaches};
use cell_model::{Cell, Pin};
use std::alloc::{AllocError, Global};
use sym_geom::{PAD_WIDTH, PITCH, Rect};
use sym_shapes::Shape;
use vlsi_base::Name;

/// How many lines of the grid a row of cells has, its foot and its head among them.
pub(crate) const GRID_ROWS: u64 = 11;

/// A pad about a point of the grid.
fn pad_at(column: u64, row: u64) -> Rect
    requires column { column ≤ 100000000000 }
    requires row { row ≤ 100 }
    ensures { result ≡ square (pos (PITCH * column)) (pos (PITCH * row)) (pos PAD_WIDTH) }
{
    let half = i64::from(PAD_WIDTH / 2);
    let x = (u64::from(PITCH) * column) as i64;
    let y = (u64::from(PITCH) * row) as i64;
    Rect {
        x1: x - half,
        y1: y - half,
        x2: x + half,
        y2: y + half,
    }
}

/// Whether a point of the grid is an access node of a pin.
#[tactic(auto, using(crate::proofs::NodeLemmas::node_told))]
pub(crate) fn is_node(cell: &Cell, shapes: &[Shape], name: &Name, column: u64, row: u64) -> bool
    requires row { StandsInRow cell.now }
    requires shapes { shapes.now ≡ drawn cell.now.items }
    requires column { column ≤ 100000000000 }
    requires line { row ≤ 100 }
    ensures { result ≡ is_access_node cell.now name.now (pos (PITCH * column), pos (PITCH * row)) }
{
    let pad = pad_at(column, row);
    has_rail(shapes, name, pad)
}

/// Puts the column behind the nodes, once for each access node that a pin has in it.
fn push_column(
    nodes: &mut Vec<u64>,
    cell: &Cell,
    shapes: &[Shape],
    name: &Name,
    column: u64,
) -> Result<(), AllocError>
    requires row { StandsInRow cell.now }
    requires shapes { shapes.now ≡ drawn cell.now.items }
    requires column { column ≤ 100000000000 }
    ensures { OnOk result (nodes.new.items ≡ nodes.old.items ++ column_nodes cell.now name.now column 11) }
{
    for row in 0..GRID_ROWS {
        if is_node(cell, shapes, name, column, row) {
            nodes.push(column)?;
        }
    }
    Ok(())
}

/// The least column between two about whose line of the grid a pad doesn't stand out below a coordinate; the end where there's
/// none.
fn column_above(low: &i64, from: u64, end: u64) -> u64
    requires order { from ≤ end }
    requires end { end ≤ 100000000000 }
    ensures from { from ≤ result }
    ensures end { result ≤ end }
    ensures skipped { (b : ℕ) → from ≤ b → b < result → (low.now +ℤ pos 100) ≤ℤ pos (PITCH * b) → ⊥ }
{
    let half = i64::from(PAD_WIDTH / 2);
    let pitch = u64::from(PITCH);
    if *low >= (pitch * end) as i64 - half {
        return end;
    }
    let least = *low + half;
    if least <= (pitch * from) as i64 {
        return from;
    }
    (least as u64).div_ceil(pitch)
}

/// The least column between two at which a shape, a connector of this name on metal 1, holds pads; the end where there's none.
fn first_column(shape: &Shape, name: &Name, from: u64, end: u64) -> u64
    requires order { from ≤ end }
    requires end { end ≤ 100000000000 }
    ensures from { from ≤ result }
    ensures end { result ≤ end }
    ensures skipped { (b : ℕ) → from ≤ b → b < result → HoldsColumn name.now b shape.now → ⊥ }
{
    if !reaches(shape, name) {
        return end;
    }
    let rect = shape.rect();
    let column = column_above(&rect.x1, from, end);
    let pad_end = (u64::from(PITCH) * column) as i64 + i64::from(PAD_WIDTH / 2);
    if rect.x2 < pad_end {
        return end;
    }
    column
}

/// The least column between two at which a connector of a pin holds pads; the end where there's none. The columns that are left
/// out have no access nodes.
fn next_column(cell: &Cell, shapes: &[Shape], name: &Name, from: u64, end: u64) -> u64
    requires row { StandsInRow cell.now }
    requires shapes { shapes.now ≡ drawn cell.now.items }
    requires order { from ≤ end }
    requires end { end ≤ 100000000000 }
    ensures from { from ≤ result }
    ensures end { result ≤ end }
    ensures skipped { node_columns cell.now name.now result ≡ node_columns cell.now name.now from }
{
    let mut next = end;
    for shape in shapes {
        next = first_column(shape, name, from, next);
    }
    next
}

/// How many columns of the grid the box of a cell has, both of its sides among them.
pub(crate) fn grid_columns(cell: &Cell) -> u64
    requires { IsFormed cell.now }
    ensures value { result ≡ grid_lines (cell_width cell.now) }
    ensures most { result ≤ 100000000000 }
{
    width_of(cell) as u64 / u64::from(PITCH) + 1
}

/// The columns of the first access nodes of a pin, more of them than its rank, or all: of billions of nodes no more than the few
/// that are needed. Columns without nodes are left out in one step, however many they are.
fn first_nodes(
    alloc: Global,
    cell: &Cell,
    shapes: &[Shape],
    name: &Name,
    rank: usize,
) -> Result<Vec<u64>, AllocError>
    requires formed { IsFormed cell.now }
    requires row { StandsInRow cell.now }
    requires shapes { shapes.now ≡ drawn cell.now.items }
    ensures { IfOk result (λ nodes. IsFront cell.now name.now (grid_lines (cell_width cell.now)) rank nodes.items) }
{
    let end = grid_columns(cell);
    let mut nodes = Vec::new(alloc);
    let mut from = 0;
    while nodes.len() <= rank {
        let column = next_column(cell, shapes, name, from, end);
        if column >= end {
            return Ok(nodes);
        }
        push_column(&mut nodes, cell, shapes, name, column)?;
        from = column + 1;
    }
    Ok(nodes)
}

/// How many pins have names before this one.
pub(crate) fn rank_of(pins: &[Pin], name: &Name) -> usize
    ensures { result ≡ length (filter (λ p. comes_before p.port.name name.now) pins.now) }
{
    pins.iter()
        .filter(|pin| pin.port.name.compare(name).is_lt())
        .count()
}

/// The column in which a pin is reached.
fn access_column(
    alloc: Global,
    cell: &Cell,
    shapes: &[Shape],
    name: &Name,
) -> Result<Option<u64>, AllocError>
    requires formed { IsFormed cell.now }
    requires row { StandsInRow cell.now }
    requires shapes { shapes.now ≡ drawn cell.now.items }
    ensures { IfOk result (λ column. IsReachedAt cell.now name.now column) }
{
    let rank = rank_of(cell.pins.as_slice(), name);
    let nodes = first_nodes(alloc, cell, shapes, name, rank)?;
    if nodes.is_empty() {
        return Ok(None);
    }
    Ok(Some(nodes[rank % nodes.len()]))
}

/// The columns in which the pins are reached, in the order of the pins. Takes memory for one entry a pin.
pub fn access_columns(
    alloc: Global,
    cell: &Cell,
    shapes: &[Shape],
) -> Result<Vec<Option<u64>>, AllocError>
    requires formed { IsFormed cell.now }
    requires row { StandsInRow cell.now }
    requires shapes { shapes.now ≡ drawn cell.now.items }
    ensures { IfOk result (λ columns. AreReachedAt cell.now columns.items) }
{
    let mut columns = Vec::new(alloc);
    for pin in cell.pins.as_slice() {
        columns.push(access_column(alloc, cell, shapes, &pin.port.name)?)?;
    }
    Ok(columns)
}
