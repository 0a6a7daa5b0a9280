// The netlist of a layout.
ghost use Rattle.std.specs.Prelude.{◌≡◌, ◌<◌, ◌^◌, length, IfOk, OnOk, IfErr};
ghost use Rattle.sym_shapes.specs.Joined.{AreJoined};
ghost use Rattle.net_core.specs.Netlist.{port};
ghost use Rattle.cougar_extract.specs.Extracted.{IsReadyFigure, IsExtracted};
ghost use Rattle.cougar_extract.specs.Refused.{CanBeNumbered, NoShort, IsExtractRefusal};
ghost use Rattle.cougar_extract.specs.Stages.{AreConnected, IsShortRefusal};

use crate::build::netlist_of;
use crate::counting::terminal_count;
use crate::drawing::{Drawing, draw_layout};
use crate::error::ExtractError;
use crate::links::{Link, links};
use crate::names::distinct_names;
use crate::shorts::{shorted_ports, shorting};
use ap_io::Figure;
use cell_checks::Library;
use net_core::Netlist;
use std::alloc::{AllocError, Global};
use sym_shapes::{Shape, joints};
use vlsi_base::{Limit, LimitKind, Port};

/// The connectors of a layout.
fn connected(alloc: Global, drawing: &Drawing) -> Result<Vec<Link>, AllocError>
    requires few { length drawing.now.shapes.items < 2 ^ 32 }
    requires gives { length drawing.now.gives.items ≡ length drawing.now.shapes.items }
    ensures { IfOk result (λ links. AreConnected drawing.now.shapes.items drawing.now.gives.items links.items) }
{
    let numbers = joints(alloc, &drawing.shapes)?;
    let links = links(alloc, drawing, &numbers)?;
    Ok(links)
}

/// How two joined ports are refused.
fn shorted(alloc: Global, shapes: &[Shape], a: &Port, b: &Port) -> Result<ExtractError, AllocError>
    requires few { length shapes.now < 2 ^ 32 }
    requires joined { AreJoined shapes.now (port a.now.name) (port b.now.name) }
    ensures { IfOk result (λ e. IsShortRefusal shapes.now a.now.name b.now.name e) }
{
    let chain = shorting(alloc, shapes, &a.name, &b.name)?;
    Ok(ExtractError::Shorted {
        a: a.name.copy(alloc)?,
        b: b.name.copy(alloc)?,
        chain,
    })
}

/// The netlist of a layout: its ports are the names of the figure's connectors, its instances are the figure's, and two terminals
/// are in one class exactly where they are the same or a chain of shapes joins them: shapes of one metal that meet, the pads of a
/// via, and connectors of one name in the figure or on one instance. Names of nets don't count. A port is an output exactly where
/// an output pin is joined to a bit of its text.
///
/// It is refused by `UnknownCell` exactly where the model of an instance isn't in the library, at the first such; else by `Limit`
/// of `Size` exactly where there are 2^32 or more shapes, with their number; else by `Limit` of `Bits` exactly where there are 2^32
/// or more ports and pins of instances, with their number, or the greatest one of 64 bits where they are more; and else by `Shorted`
/// exactly where two ports of different names are joined: the least name of such a port, and the least other name that is joined to
/// it, with a chain of shapes between them.
///
/// Takes memory for the shapes and the netlist, and meanwhile for a few entries a shape; time for the shapes, times the logarithm
/// of their number, and for each instance and each cell.
pub fn extract(alloc: Global, figure: &Figure, library: &Library) -> Result<Netlist, ExtractError>
    requires { IsReadyFigure figure.now }
    ensures extracted { IfOk result (λ n. IsExtracted figure.now library.now n) }
    ensures few { OnOk result (CanBeNumbered figure.now.items library.now) }
    ensures apart { OnOk result (NoShort figure.now.items library.now) }
    ensures refused { IfErr result (λ e. IsExtractRefusal figure.now library.now e) }
{
    let cells = library.cells();
    let items = figure.items.as_slice();
    let drawing = draw_layout(alloc, items, cells)?;
    if drawing.shapes.len() > u32::MAX as usize {
        return Err(ExtractError::Limit(Limit {
            which: LimitKind::Size,
            reached: drawing.shapes.len() as u64,
        }));
    }
    let names = distinct_names(alloc, items)?;
    let terminals = terminal_count(names.len(), items, cells);
    if terminals > u64::from(u32::MAX) {
        return Err(ExtractError::Limit(Limit {
            which: LimitKind::Bits,
            reached: terminals,
        }));
    }
    let links = connected(alloc, &drawing)?;
    let netlist = netlist_of(alloc, figure, cells, &names, &links)?;
    match shorted_ports(alloc, &netlist)? {
        None => Ok(netlist),
        Some((a, b)) => {
            let ports = netlist.ports();
            Err(shorted(alloc, &drawing.shapes, &ports[a], &ports[b])?)
        }
    }
}
