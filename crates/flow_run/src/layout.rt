// The layout of a netlist: with private tracks above one row, or in rows; and the text of its tracks.
ghost use Rattle.std.specs.Prelude.{◌≡◌, IfOk, IfErr, true, false};
ghost use Rattle.cell_checks.specs.Checked.{IsChecked as HasPassed};
ghost use Rattle.machine_roots.specs.Roots.{IsGreatestDcount};
ghost use Rattle.ocp_place.specs.Drawable.{IsDrawableIn};
ghost use Rattle.route_draw.specs.Drawn.{IsDrawnInTracks};
ghost use Rattle.flow_run.specs.View.{origin_view};
ghost use Rattle.flow_run.specs.Drawn.{layout_name as layout_name_of, MayBeDrawn, IsLengthOf, IsDrawnAs, IsStuckAs};
ghost use Rattle.flow_run.specs.Route.{on_tracks, rows_asked, route_of};
ghost use Rattle.flow_words.specs.Words.{IsWithinBounds};
ghost use Rattle.tool_drive.specs.Table.{IsFair};

use crate::report::report;
use crate::row_layout::row_product;
use crate::source::Counted;
use ap_io::{Figure, write_ap, written_is_read_again};
use cell_checks::Library;
use cell_pins::libraries_have_tables;
use flow_netlist::driven_netlist_law;
use flow_words::FlowCommand;
use loon_drive::Driven;
use machine_core::alike_law;
use nero_tracks::{TrackError, columns_are_free, route_tracks};
use net_core::Netlist;
use net_right::right_is_well_formed;
use ocp_place::{half_perimeter, right_may_be_drawn, track_place};
use route_draw::{draw_tracks, drawing_can_be_written, right_drawings_are_right};
use std::alloc::{AllocError, Global};
use tool_drive::{Product, Refusal};
use vlsi_base::FileName;

/// What is drawn, and how long its nets are.
#[derive(Drop)]
struct Sheet {
    figure: Figure,
    wire: u128,
}

// The netlist in one row, each net on a track of its own.
fn drawing(alloc: Global, netlist: &Netlist, library: &Library) -> Result<Sheet, AllocError>
    requires passed { HasPassed true library.now }
    requires netlist { IsDrawableIn library.now netlist.now }
    ensures figure { IfOk result (λ d. IsDrawnInTracks library.now netlist.now d.figure) }
    ensures wire { IfOk result (λ d. IsLengthOf library.now netlist.now d.wire) }
{
    columns_are_free();
    // A library has passed its checks but for that of columns.
    let _ = library.cells();
    let placement = track_place(alloc, netlist, library)?;
    let tracks = match route_tracks(alloc, &placement, netlist, library) {
        Ok(tracks) => tracks,
        Err(TrackError::Memory) => return Err(AllocError),
        Err(TrackError::NoColumn { .. }) => unreachable!(),
    };
    let figure = draw_tracks(alloc, &placement, netlist, library, &tracks)?;
    let wire = half_perimeter(&placement, library);
    Ok(Sheet { figure, wire })
}

pub(crate) fn layout_name(alloc: Global, out: &FileName) -> Result<FileName, AllocError>
    ensures { IfOk result (λ name. name ≡ layout_name_of out.now) }
{
    let mut name = out.copy(alloc)?;
    name.append(b".ap")?;
    Ok(name)
}

// The layout of a machine's netlist with tracks, in the file NAME.ap, and the report on it.
fn track_product(
    alloc: Global,
    out: &FileName,
    counted: &Counted,
    driven: &Driven,
    library: &Library,
) -> Result<Product, AllocError>
    requires netlist { MayBeDrawn true library.now (origin_view counted.now.source.origin) counted.now.source.machine counted.now.fanout
        driven.now.netlist driven.now.delay }
    requires nodes { IsGreatestDcount counted.now.source.machine counted.now.nodes }
    ensures { IfOk result (λ p. IsDrawnAs out.now (origin_view counted.now.source.origin) counted.now.source.machine library.now counted.now.fanout on_tracks p) }
{
    driven_netlist_law();
    right_is_well_formed();
    right_may_be_drawn();
    right_drawings_are_right();
    alike_law();
    drawing_can_be_written();
    written_is_read_again();
    // A library has passed its checks, so it has a table of pins, by which it is said what placing and drawing ask.
    libraries_have_tables();
    let _ = library.cells();
    let sheet = drawing(alloc, &driven.netlist, library)?;
    let file = write_ap(alloc, &sheet.figure)?;
    let text = report(alloc, counted, driven, sheet.wire)?;
    let name = layout_name(alloc, out)?;
    Ok(Product {
        name,
        file: Some(file),
        text,
    })
}

/// The layout of a machine's netlist, in the file NAME.ap, and the report on it; or, over rows, where a net gets stuck, what stood so far in
/// NAME_part.ap. Memory goes by the lines of the layout, and over rows by the nodes of the grid.
pub(crate) fn product(
    alloc: Global,
    command: &FlowCommand,
    counted: &Counted,
    driven: &Driven,
    library: &Library,
) -> Result<Product, Refusal>
    requires bounds { IsWithinBounds command.now }
    requires netlist { MayBeDrawn command.now.tracks library.now (origin_view counted.now.source.origin) counted.now.source.machine
        counted.now.fanout driven.now.netlist driven.now.delay }
    requires nodes { IsGreatestDcount counted.now.source.machine counted.now.nodes }
    ensures drawn { IfOk result (λ p. IsDrawnAs command.now.out (origin_view counted.now.source.origin) counted.now.source.machine library.now
        counted.now.fanout (route_of command.now) p) }
    ensures stuck { IfErr result (λ r. IsFair r.status r.part ((command.now.tracks ≡ false) × IsStuckAs command.now.out
        (origin_view counted.now.source.origin) counted.now.source.machine library.now counted.now.fanout (rows_asked command.now) r)) }
{
    if command.tracks {
        let product = track_product(alloc, &command.out, counted, driven, library)?;
        return Ok(product);
    }
    row_product(alloc, command, counted, driven, library)
}
