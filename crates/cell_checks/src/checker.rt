// The first check that a cell fails, and its verdict.
ghost use Rattle.std.specs.Prelude.{◌≡◌, IfOk};
ghost use Rattle.cell_model.specs.Usable.{IsFormed, IsMappable};
ghost use Rattle.cell_model.specs.Connectors.{PinsAreConnectors};
ghost use Rattle.sym_shapes.specs.Shape.{drawn};
ghost use Rattle.cell_checks.specs.Shapes.{AreNumbered, wanted};
ghost use Rattle.cell_checks.specs.Verdict.{PassesFirst, IsFirstFailure, IsVerdict};

use crate::columns::columns_differ;
use crate::connectors::{pin_names, pins_are_connectors};
use crate::layout::{has_rails, keeps_from_rails, keeps_to_box, pins_are_apart, reaches_pins};
use crate::row::{columns_of, stands_in_row};
use crate::{CellVerdict, Check, MOST_COLUMNS};
use cell_model::{Cell, is_mappable};
use std::alloc::{AllocError, Global};
use sym_shapes::{Shape, drawn, joints};
use vlsi_base::Name;

/// Numbers that tell which shapes of a cell are joined.
#[tactic(auto, using(crate::proofs::Firsts::few_shapes, crate::proofs::Firsts::drawn_ones))]
fn numbered(alloc: Global, cell: &Cell, shapes: &[Shape]) -> Result<Vec<u32>, AllocError>
    requires formed { IsFormed cell.now }
    requires shapes { shapes.now ≡ drawn cell.now.items }
    ensures { IfOk result (λ numbers. AreNumbered shapes.now numbers.items) }
{
    joints(alloc, shapes)
}

/// The first check of joined shapes, and with tracks of columns, that a mappable cell fails.
#[tactic(auto, using(crate::proofs::Firsts::fails_apart, crate::proofs::Firsts::fails_within, crate::proofs::Firsts::passes_without))]
fn joined_failure(
    alloc: Global,
    cell: &Cell,
    shapes: &[Shape],
    names: &[Name],
    tracks: bool,
) -> Result<Option<Check>, AllocError>
    requires formed { IsFormed cell.now }
    requires mappable { IsMappable cell.now }
    requires before { PassesFirst cell.now }
    requires shapes { shapes.now ≡ drawn cell.now.items }
    requires names { names.now ≡ wanted cell.now }
    ensures { IfOk result (λ found. IsFirstFailure tracks cell.now found) }
{
    let numbers = numbered(alloc, cell, shapes)?;
    if !pins_are_apart(cell, shapes, &numbers, names) {
        return Ok(Some(Check::PinsApart));
    }
    if !keeps_to_box(cell, shapes) {
        return Ok(Some(Check::WithinBox));
    }
    if !keeps_from_rails(cell, shapes, &numbers, names) {
        return Ok(Some(Check::RailGaps));
    }
    if !tracks {
        return Ok(None);
    }
    if !columns_differ(alloc, cell, shapes)? {
        return Ok(Some(Check::Columns));
    }
    Ok(None)
}

/// The first check that a mappable cell fails behind that of its connectors.
#[tactic(auto, using(crate::proofs::Firsts::fails_box, crate::proofs::Firsts::fails_rails, crate::proofs::Firsts::fails_access))]
fn layout_failure(alloc: Global, cell: &Cell, tracks: bool) -> Result<Option<Check>, AllocError>
    requires formed { IsFormed cell.now }
    requires connectors { PinsAreConnectors cell.now }
    requires mappable { IsMappable cell.now }
    ensures { IfOk result (λ found. IsFirstFailure tracks cell.now found) }
{
    if !stands_in_row(cell) {
        return Ok(Some(Check::Box));
    }
    let names = pin_names(alloc, cell.pins.as_slice())?;
    let shapes = drawn(alloc, cell.items.as_slice())?;
    if !has_rails(cell, &shapes, &names) {
        return Ok(Some(Check::Rails));
    }
    if !reaches_pins(cell, &shapes) {
        return Ok(Some(Check::Access));
    }
    joined_failure(alloc, cell, &shapes, &names, tracks)
}

/// The first check that a cell fails.
fn first_failure(alloc: Global, cell: &Cell, tracks: bool) -> Result<Option<Check>, AllocError>
    requires formed { IsFormed cell.now }
    ensures { IfOk result (λ found. IsFirstFailure tracks cell.now found) }
{
    if !pins_are_connectors(alloc, cell)? {
        return Ok(Some(Check::Connectors));
    }
    if !is_mappable(cell) {
        return Ok(None);
    }
    layout_failure(alloc, cell, tracks)
}

/// What the checks of a cell come to, where that of columns is made with tracks alone. Takes memory for a few entries a line of
/// its layout.
pub fn check_cell(alloc: Global, cell: &Cell, tracks: bool) -> Result<CellVerdict, AllocError>
    requires { IsFormed cell.now }
    ensures { IfOk result (λ verdict. IsVerdict tracks cell.now verdict) }
{
    if let Some(check) = first_failure(alloc, cell, tracks)? {
        return Ok(CellVerdict::Fails(check));
    }
    if !is_mappable(cell) {
        return Ok(CellVerdict::Passes);
    }
    match columns_of(cell) {
        Some(columns) if columns > MOST_COLUMNS => Ok(CellVerdict::TooWide(columns)),
        _ => Ok(CellVerdict::Passes),
    }
}
