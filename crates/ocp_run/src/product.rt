// What is written and printed of a placement.
ghost use Rattle.std.specs.Prelude.{◌≡◌, IfOk};
ghost use Rattle.ocp_place.specs.Placed.{IsRowPlacementOf};
ghost use Rattle.ocp_run.specs.Ocp.{IsPlacedText, IsWrittenAs};

use ap_io::write_ap;
use cell_checks::Library;
use net_core::Netlist;
use ocp_place::{Placement, half_perimeter};
use route_draw::draw_placed;
use std::alloc::{AllocError, Global};
use tool_drive::{Product, count_text, file_name};
use vlsi_base::{FileBytes, FileName};

// The text of the placement without routes.
fn placed_text(
    alloc: Global,
    netlist: &Netlist,
    library: &Library,
    placement: &Placement,
) -> Result<FileBytes, AllocError>
    requires { IsRowPlacementOf library.now netlist.now placement.now }
    ensures { IfOk result (λ bytes. IsPlacedText library.now netlist.now placement.now bytes) }
{
    let figure = draw_placed(alloc, placement, netlist, library)?;
    write_ap(alloc, &figure)
}

/// The placement's file, NAME.ap, and what is printed.
pub(crate) fn product(
    alloc: Global,
    out: &FileName,
    netlist: &Netlist,
    library: &Library,
    placement: &Placement,
) -> Result<Product, AllocError>
    requires { IsRowPlacementOf library.now netlist.now placement.now }
    ensures { IfOk result (λ p. IsWrittenAs out.now library.now netlist.now placement.now p) }
{
    let file = placed_text(alloc, netlist, library, placement)?;
    let name = file_name(alloc, out, b".ap")?;
    let length = half_perimeter(placement, library);
    let text = count_text(alloc, b"length", length)?;
    Ok(Product {
        name,
        file: Some(file),
        text,
    })
}
