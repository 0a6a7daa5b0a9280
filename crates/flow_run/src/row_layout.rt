// The layout of a netlist in rows: placed, routed over the rows, drawn, and written.
ghost use Rattle.std.specs.Prelude.{false, IfOk, IfErr};
ghost use Rattle.machine_roots.specs.Roots.{IsGreatestDcount};
ghost use Rattle.tool_drive.specs.Table.{IsFair};
ghost use Rattle.flow_words.specs.Words.{IsWithinBounds};
ghost use Rattle.flow_run.specs.View.{origin_view};
ghost use Rattle.flow_run.specs.Route.{rows_asked, over_rows};
ghost use Rattle.flow_run.specs.Drawn.{IsDrawnAs, IsStuckAs, MayBeDrawn};

use crate::layout::layout_name;
use crate::report::report;
use crate::source::Counted;
use ap_io::lines_are_read_again;
use cell_checks::Library;
use cell_pins::libraries_have_tables;
use flow_netlist::driven_netlist_law;
use flow_words::FlowCommand;
use loon_drive::Driven;
use machine_core::alike_law;
use maze_drawing::{marked_routes_keep_nets, routes_keep_nets};
use nero_nets::{grids_are_small, marks_tell_nets};
use nero_run::{refusal, row_text};
use net_right::right_is_well_formed;
use ocp_anneal::{Moves, place};
use ocp_grid::placements_are_in_rows;
use ocp_place::{half_perimeter, right_may_be_drawn};
use route_draw::{
    grid_drawing_can_be_written, marked_drawing_can_be_written, right_grid_drawings_are_right,
};
use std::alloc::Global;
use tool_drive::{Product, Refusal};

/// The layout of a machine's netlist in rows, in the file NAME.ap, and the report on it; or, where a net gets stuck, what stood so far in
/// NAME_part.ap. Memory goes by the nodes of the grid over the rows and by the lines of the layout.
pub(crate) fn row_product(
    alloc: Global,
    command: &FlowCommand,
    counted: &Counted,
    driven: &Driven,
    library: &Library,
) -> Result<Product, Refusal>
    requires bounds { IsWithinBounds command.now }
    requires netlist { MayBeDrawn false library.now (origin_view counted.now.source.origin) counted.now.source.machine counted.now.fanout
        driven.now.netlist driven.now.delay }
    requires nodes { IsGreatestDcount counted.now.source.machine counted.now.nodes }
    ensures drawn { IfOk result (λ p. IsDrawnAs command.now.out (origin_view counted.now.source.origin) counted.now.source.machine library.now
        counted.now.fanout (over_rows (rows_asked command.now)) p) }
    ensures stuck { IfErr result (λ r. IsFair r.status r.part (IsStuckAs command.now.out (origin_view counted.now.source.origin)
        counted.now.source.machine library.now counted.now.fanout (rows_asked command.now) r)) }
{
    driven_netlist_law();
    right_is_well_formed();
    right_may_be_drawn();
    alike_law();
    placements_are_in_rows();
    grids_are_small();
    marks_tell_nets();
    routes_keep_nets();
    marked_routes_keep_nets();
    right_grid_drawings_are_right();
    grid_drawing_can_be_written();
    marked_drawing_can_be_written();
    lines_are_read_again();
    // A library has passed its checks, so it has a table of pins, by which it is said what placing and drawing ask.
    libraries_have_tables();
    let _ = library.cells();
    // A netlist has no more classes than 32 bits number.
    let _ = driven.netlist.count();
    let moves = Moves {
        many: command.moves,
        seed: command.seed,
    };
    let placement = place(alloc, &driven.netlist, library, command.rows, moves)?;
    let written = row_text(
        alloc,
        &driven.netlist,
        library,
        &placement,
        command.metals as u8,
    );
    let file = match written {
        Ok(file) => file,
        Err(none) => return Err(refusal(alloc, &command.out, none)),
    };
    let wire = half_perimeter(&placement, library);
    let text = report(alloc, counted, driven, wire)?;
    let name = layout_name(alloc, &command.out)?;
    Ok(Product {
        name,
        file: Some(file),
        text,
    })
}
