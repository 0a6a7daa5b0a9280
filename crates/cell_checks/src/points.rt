// The points at which the pins of a cell are reached.
ghost use Rattle.std.specs.Prelude.{◌≡◌, ◌++◌, ◌*◌, ◌≤◌, map, option_map, pos, IfOk, OnOk};
ghost use Rattle.machine_core.specs.Machine.{names_of};
ghost use Rattle.sym_shapes.specs.Shape.{drawn};
ghost use Rattle.cell_model.specs.Cell.{pin_ports};
ghost use Rattle.cell_model.specs.Access.{access_nodes, access_point};
ghost use Rattle.cell_model.specs.Usable.{IsFormed};
ghost use Rattle.cell_checks.specs.Checks.{StandsInRow};
ghost use Rattle.cell_checks.specs.Points.{point_of, nodes_in};

use crate::nodes::{GRID_ROWS, grid_columns, is_node, rank_of};
use cell_model::Cell;
use std::alloc::{AllocError, Global};
use sym_geom::PITCH;
use sym_shapes::{Shape, drawn};
use vlsi_base::Name;

/// A point of the grid of a cell, counted from the lower left corner of its box.
#[derive(Clone, Copy)]
pub struct GridPoint {
    pub x: u64,
    pub y: u64,
}

/// Puts the access nodes of a pin in a column behind the others.
fn push_nodes(
    nodes: &mut Vec<GridPoint>,
    cell: &Cell,
    shapes: &[Shape],
    name: &Name,
    column: u64,
) -> Result<(), AllocError>
    requires row { StandsInRow cell.now }
    requires shapes { shapes.now ≡ drawn cell.now.items }
    requires column { column ≤ 100000000000 }
    ensures { OnOk result (map point_of nodes.new.items ≡ map point_of nodes.old.items ++ nodes_in cell.now name.now column 11) }
{
    for row in 0..GRID_ROWS {
        if is_node(cell, shapes, name, column, row) {
            nodes.push(GridPoint {
                x: u64::from(PITCH) * column,
                y: u64::from(PITCH) * row,
            })?;
        }
    }
    Ok(())
}

/// The access nodes of a pin, in their order.
fn nodes(
    alloc: Global,
    cell: &Cell,
    shapes: &[Shape],
    name: &Name,
) -> Result<Vec<GridPoint>, AllocError>
    requires formed { IsFormed cell.now }
    requires row { StandsInRow cell.now }
    requires shapes { shapes.now ≡ drawn cell.now.items }
    ensures { IfOk result (λ nodes. map point_of nodes.items ≡ access_nodes cell.now name.now) }
{
    let mut nodes = Vec::new(alloc);
    for column in 0..grid_columns(cell) {
        push_nodes(&mut nodes, cell, shapes, name, column)?;
    }
    Ok(nodes)
}

/// The point at which a pin is reached.
fn point(
    alloc: Global,
    cell: &Cell,
    shapes: &[Shape],
    name: &Name,
) -> Result<Option<GridPoint>, AllocError>
    requires formed { IsFormed cell.now }
    requires row { StandsInRow cell.now }
    requires shapes { shapes.now ≡ drawn cell.now.items }
    ensures { IfOk result (λ point. option_map point_of point ≡ access_point cell.now name.now) }
{
    let rank = rank_of(cell.pins.as_slice(), name);
    let nodes = nodes(alloc, cell, shapes, name)?;
    if nodes.is_empty() {
        return Ok(None);
    }
    Ok(Some(nodes[rank % nodes.len()]))
}

/// The points at which the pins of a cell are reached, in the order of the pins; none for a pin without an access node. Takes memory
/// for the shapes of the cell and the nodes of a pin, and time for the grid of the cell, once for each pin.
pub fn access_points(alloc: Global, cell: &Cell) -> Result<Vec<Option<GridPoint>>, AllocError>
    requires formed { IsFormed cell.now }
    requires row { StandsInRow cell.now }
    ensures { IfOk result (λ points. map (option_map point_of) points.items ≡ map (access_point cell.now) (names_of (pin_ports cell.now))) }
{
    let shapes = drawn(alloc, cell.items.as_slice())?;
    let mut points = Vec::new(alloc);
    for pin in cell.pins.as_slice() {
        points.push(point(alloc, cell, &shapes, &pin.port.name)?)?;
    }
    Ok(points)
}
