// Whether the pins of the cells in use are reached in different columns.
ghost use Rattle.std.specs.Prelude.{◌≡◌, ◌<◌, map, IfOk, IfErr, OnOk};
ghost use Rattle.std.specs.List.{All};
ghost use Rattle.std.specs.Option.{option_copied};
ghost use Rattle.cell_model.specs.Library.{cell_named};
ghost use Rattle.cell_model.specs.Usable.{IsFormed};
ghost use Rattle.cell_checks.specs.Checks.{StandsInRow, ColumnsDiffer};
ghost use Rattle.nero_tracks.specs.Columns.{IsSharedPin, HasOwnColumns, IsModelRefusal, HaveOwnColumns};
ghost use Rattle.nero_tracks.specs.Drawable.{IsDrawableIn, IsTrackRefusal};
ghost use Rattle.nero_tracks.specs.Tracks.{AreMarks};

use crate::TrackError;
use crate::marks::no_marks;
use cell_checks::{Library, shared_pin};
use cell_model::{Cell, is_mappable};
use net_core::{Netlist, Node};
use std::alloc::{AllocError, Global};
use vlsi_base::Text;

/// The first cell of a name.
fn cell_of<'l>(cells: &'l [Cell], model: &Text) -> Option<&'l Cell>
    ensures { option_copied result ≡ cell_named cells.now model.now }
{
    for cell in cells {
        if cell.name.is_same(model) {
            return Some(cell);
        }
    }
    None
}

/// Checks the columns of one cell.
fn check_cell(alloc: Global, cell: &Cell) -> Result<(), TrackError>
    requires formed { IsFormed cell.now }
    requires row { StandsInRow cell.now }
    ensures apart { OnOk result (ColumnsDiffer cell.now) }
    ensures refused { IfErr result (λ e. IsSharedPin cell.now e) }
{
    let Some(place) = shared_pin(alloc, cell)? else {
        return Ok(());
    };
    let pin = &cell.pins.as_slice()[place].port.name;
    Err(TrackError::NoColumn {
        cell: cell.name.copy(alloc)?,
        pin: pin.copy(alloc)?,
    })
}

/// Checks the columns of the cell of a model, if a netlist may use it.
fn check_model(alloc: Global, library: &Library, model: &Text) -> Result<(), TrackError>
    ensures apart { OnOk result (HasOwnColumns library.now model.now) }
    ensures refused { IfErr result (λ e. IsModelRefusal library.now model.now e) }
{
    match cell_of(library.cells(), model) {
        Some(cell) if is_mappable(cell) => check_cell(alloc, cell),
        _ => Ok(()),
    }
}

/// For each of so many models, whether an instance has it.
fn models_in_use(alloc: Global, nodes: &[Node], count: usize) -> Result<Vec<bool>, AllocError>
    requires { All (λ i. i.model < count) nodes.now }
    ensures { IfOk result (λ v. AreMarks (map (λ i. i.model) nodes.now) count v.items) }
{
    let mut marks = no_marks(alloc, count)?;
    for node in nodes {
        marks[node.model] = true;
    }
    Ok(marks)
}

/// Checks the columns of the cells in use, each once, in the order of the models.
pub(crate) fn check_columns(
    alloc: Global,
    netlist: &Netlist,
    library: &Library,
) -> Result<(), TrackError>
    requires { IsDrawableIn library.now netlist.now }
    ensures apart { OnOk result (HaveOwnColumns library.now netlist.now) }
    ensures refused { IfErr result (λ e. IsTrackRefusal library.now netlist.now e) }
{
    let models = netlist.models();
    let in_use = models_in_use(alloc, netlist.nodes(), models.len())?;
    for k in 0..models.len() {
        if in_use[k] {
            check_model(alloc, library, &models[k])?;
        }
    }
    Ok(())
}
