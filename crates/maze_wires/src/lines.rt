// The lines of nets and of their points.
ghost use Rattle.std.specs.Prelude.{◌≡◌, ◌<◌, ◌++◌, ◌∷◌, [], map, if◌then◌else◌, IfOk, OnOk};
ghost use Rattle.std.specs.Option.{option_copied};
ghost use Rattle.sym_geom.specs.declared.item.Direction.TheVariants.{Up, Right};
ghost use Rattle.grid_core.specs.Grid.{is_level, ahead};
ghost use Rattle.ocp_rows.specs.Placement.{column_x, row_y};
ghost use Rattle.maze_drawing.specs.Wiring.{level_of, contact_of, wire_item, via_item, net_items};
ghost use Rattle.maze_drawing.specs.Law.{mark};
ghost use Rattle.maze_wires.specs.Shown.{shown_wire, shown_net};

use crate::wires::{NetWires, Wire};
use grid_core::Node;
use std::alloc::{AllocError, Global};
use sym_geom::{
    Contact, Direction, FIRST_CELL_X, Item, Items, Layer, Level, PITCH, Reference, Segment, Via,
    WIRE_WIDTH,
};
use vlsi_base::{Name, Text, push_u64};

/// The x of a column of the grid.
fn column_x(column: u64) -> i64
    requires { column < 8589934592 }
    ensures { result ≡ column_x column }
{
    (u64::from(FIRST_CELL_X) + u64::from(PITCH) * column) as i64
}

/// The y of a row of the grid.
fn row_y(row: u64) -> i64
    requires { row < 8589934592 }
    ensures { result ≡ row_y row }
{
    (u64::from(PITCH) * row) as i64
}

/// A metal from 2 to 6.
fn level_of(metal: u8) -> Level
    ensures { result ≡ level_of metal }
{
    match metal {
        2 => Level::Two,
        3 => Level::Three,
        4 => Level::Four,
        5 => Level::Five,
        6 => Level::Six,
        _ => Level::One,
    }
}

/// The contact that joins a metal from 1 to 5 and the next.
fn contact_of(metal: u8) -> Contact
    ensures { result ≡ contact_of metal }
{
    match metal {
        2 => Contact::Via2,
        3 => Contact::Via3,
        4 => Contact::Via4,
        5 => Contact::Via5,
        _ => Contact::Via1,
    }
}

/// A copy of a name, if there is one.
fn label(alloc: Global, name: Option<&Name>) -> Result<Option<Name>, AllocError>
    ensures { IfOk result (λ made. made ≡ option_copied name.entry) }
{
    match name {
        None => Ok(None),
        Some(name) => Ok(Some(name.copy(alloc)?)),
    }
}

/// Which way wires of a metal run.
fn direction_of(metal: u8) -> Direction
    ensures { result ≡ (if is_level metal then Right else Up) }
{
    if metal % 2 == 0 {
        Direction::Right
    } else {
        Direction::Up
    }
}

/// The column in which a wire ends.
fn last_column(wire: &Wire) -> u64
    ensures value { result ≡ (ahead wire.now.from wire.now.steps).column }
    ensures below { result < 8589934592 }
{
    let column = u64::from(wire.from.column);
    if wire.from.metal % 2 == 0 {
        column + u64::from(wire.steps)
    } else {
        column
    }
}

/// The row in which a wire ends.
fn last_row(wire: &Wire) -> u64
    ensures value { result ≡ (ahead wire.now.from wire.now.steps).row }
    ensures below { result < 8589934592 }
{
    let row = u64::from(wire.from.row);
    if wire.from.metal % 2 == 0 {
        row
    } else {
        row + u64::from(wire.steps)
    }
}

/// Adds a wire, from its lesser end on.
fn push_wire(
    alloc: Global,
    items: &mut Items,
    name: Option<&Name>,
    wire: &Wire,
) -> Result<(), AllocError>
    ensures { OnOk result (items.new ≡ items.old ++ wire_item (option_copied name.entry) (shown_wire wire.now) ∷ []) }
{
    let name = label(alloc, name)?;
    items.push(Item::Segment(Segment {
        x1: column_x(u64::from(wire.from.column)),
        y1: row_y(u64::from(wire.from.row)),
        x2: column_x(last_column(wire)),
        y2: row_y(last_row(wire)),
        width: i64::from(WIRE_WIDTH),
        name,
        direction: direction_of(wire.from.metal),
        layer: Layer::Alu(level_of(wire.from.metal)),
    }))
}

/// Adds a via, by its lower node.
fn push_via(
    alloc: Global,
    items: &mut Items,
    name: Option<&Name>,
    via: &Node,
) -> Result<(), AllocError>
    ensures { OnOk result (items.new ≡ items.old ++ via_item (option_copied name.entry) via.now ∷ []) }
{
    let name = label(alloc, name)?;
    items.push(Item::Via(Via {
        x: column_x(u64::from(via.column)),
        y: row_y(u64::from(via.row)),
        contact: contact_of(via.metal),
        name,
    }))
}

/// Adds the wires of a net, then its vias, all by the name of its port, or by none where it has no port. Takes memory for them.
pub fn push_net(
    alloc: Global,
    items: &mut Items,
    name: Option<&Name>,
    net: &NetWires,
) -> Result<(), AllocError>
    ensures { OnOk result (items.new ≡ items.old ++ net_items (option_copied name.entry) (shown_net net.now)) }
{
    for wire in &net.wires {
        push_wire(alloc, items, name, wire)?;
    }
    for via in &net.vias {
        push_via(alloc, items, name, via)?;
    }
    Ok(())
}

/// Adds a mark at a point of a net, with the net's number.
fn push_mark(alloc: Global, items: &mut Items, net: u32, point: &Node) -> Result<(), AllocError>
    ensures { OnOk result (items.new ≡ items.old ++ mark net point.now ∷ []) }
{
    let word = Text::from_bytes(alloc, b"ref_con")?;
    let mut name = Text::from_bytes(alloc, b"n")?;
    push_u64(alloc, &mut name, u64::from(net))?;
    items.push(Item::Reference(Reference {
        x: column_x(u64::from(point.column)),
        y: row_y(u64::from(point.row)),
        word,
        name,
    }))
}

/// Adds a mark at each point of a net, in the order of the points. Takes memory for them.
pub fn push_marks(
    alloc: Global,
    items: &mut Items,
    net: u32,
    points: &[Node],
) -> Result<(), AllocError>
    ensures { OnOk result (items.new ≡ items.old ++ map (mark net) points.now) }
{
    for point in points {
        push_mark(alloc, items, net, point)?;
    }
    Ok(())
}
