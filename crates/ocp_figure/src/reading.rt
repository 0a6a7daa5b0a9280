// A placement, read back from its drawing.
ghost use Rattle.std.specs.Prelude.{◌≡◌, false, IfOk, IfErr};
ghost use Rattle.cell_checks.specs.Checked.{IsChecked as HasPassed};
ghost use Rattle.ocp_place.specs.Drawable.{IsDrawableIn};
ghost use Rattle.ocp_place.specs.Placed.{IsRowPlacementOf};
ghost use Rattle.route_draw.specs.Grid.{IsDrawnPlaced};
ghost use Rattle.ocp_figure.specs.Answers.{HasNoPlacement};
ghost use Rattle.ocp_figure.specs.declared.error.PlaceError.TheVariants.{NotPlaced};

use crate::error::PlaceError;
use crate::lines::same_figure;
use crate::stands::{instance_count, read_rows, row_count};
use ap_io::Figure;
use cell_checks::Library;
use net_core::Netlist;
use ocp_grid::placements_are_in_rows;
use ocp_place::{Placement, place_in_rows};
use route_draw::draw_placed;
use std::alloc::Global;

/// The placement of a netlist whose drawing without routes a figure is: its name is the netlist's, and its box and all its lines, in
/// their order, are those of the placement. NotPlaced exactly where no placement in 1 to 256 rows has it as its drawing. Takes memory for
/// each terminal, for the shapes of the cells in use and for the lines of a drawing; and time for each, times a logarithm.
pub fn of_figure(
    alloc: Global,
    figure: &Figure,
    netlist: &Netlist,
    library: &Library,
) -> Result<Placement, PlaceError>
    requires library { HasPassed false library.now }
    requires netlist { IsDrawableIn library.now netlist.now }
    ensures placed { IfOk result (λ p. IsRowPlacementOf library.now netlist.now p) }
    ensures drawn { IfOk result (λ p. IsDrawnPlaced library.now netlist.now p figure.now) }
    ensures refused { IfErr result (λ e. e ≡ NotPlaced → HasNoPlacement library.now netlist.now figure.now) }
{
    placements_are_in_rows();
    let _ = netlist.classes();
    let items = figure.items.as_slice();
    if instance_count(items) != netlist.nodes().len() {
        return Err(PlaceError::NotPlaced);
    }
    let rows = read_rows(alloc, items, row_count(&figure.bounds))?;
    let placement = place_in_rows(alloc, netlist, library, rows)?;
    let drawn = draw_placed(alloc, &placement, netlist, library)?;
    if !same_figure(&drawn, figure) {
        return Err(PlaceError::NotPlaced);
    }
    Ok(placement)
}
