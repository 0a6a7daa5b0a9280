// What is true of drawings.
ghost use Rattle.route_draw.specs.Law.{NetlistsAreDrawable, RightDrawingsAreRight, RightGridDrawingsAreRight, DrawingCanBeWritten, GridDrawingCanBeWritten, MarkedDrawingCanBeWritten, PlacedDrawingCanBeWritten};

use maze_drawing::{routes_keep_nets, routes_show_netlist};
use ocp_grid::{placements_are_in_rows, points_are_apart};

/// A netlist of usable cells may be drawn over a checked library, where no two pins of a cell in use are reached in one column.
pub fn netlists_are_drawable()
    ensures { NetlistsAreDrawable }
{}

/// The drawing of a netlist that is right for some machine gives exactly this netlist.
pub fn right_drawings_are_right()
    ensures { RightDrawingsAreRight }
{}

/// So does the drawing of whole routes over its rows.
pub fn right_grid_drawings_are_right()
    ensures { RightGridDrawingsAreRight }
{}

/// The figure of a netlist with names that can be written and within the limits of sources can be written.
pub fn drawing_can_be_written()
    ensures { DrawingCanBeWritten }
{}

/// So can that of routes over rows, whose text may be longer than a source's.
pub fn grid_drawing_can_be_written()
    ensures { GridDrawingCanBeWritten }
{
    placements_are_in_rows();
}

/// So can that of rows without routes.
pub fn placed_drawing_can_be_written()
    ensures { PlacedDrawingCanBeWritten }
{
    placements_are_in_rows();
    routes_keep_nets();
    routes_show_netlist();
}

/// And so can the figure of routes with marks at the points of nets.
pub fn marked_drawing_can_be_written()
    ensures { MarkedDrawingCanBeWritten }
{
    placements_are_in_rows();
    points_are_apart();
}
