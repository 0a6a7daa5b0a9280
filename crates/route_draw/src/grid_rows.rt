// Ports, instances and supplies over rows, every other of which is upside down.
ghost use Rattle.std.specs.Prelude.{◌≡◌, ◌++◌, ◌∷◌, ◌≤◌, ◌<◌, [], map, pos, length, IfOk, OnOk};
ghost use Rattle.std.specs.List.{All};
ghost use Rattle.sym_geom.specs.declared.item.Item.TheVariants.{Instance as instance_item};
ghost use Rattle.ocp_rows.specs.Placement.{turn_of, rail, strap, strap_vias, grid_ports, port_column};
ghost use Rattle.ocp_place.specs.Stood.{is_turned, stood};
ghost use Rattle.route_draw.specs.GridPieces.{rail_y, rail_ys, row_rails, both_straps, supplies_over, stood_lines};

use crate::lines::{Spot, Wire, north_port, push_via, push_wire, scalar};
use net_core::Netlist;
use ocp_place::Placement;
use std::alloc::{AllocError, Global};
use sym_geom::{
    Contact, Direction, FIRST_CELL_X, Instance, Item, Items, Layer, Level, PITCH, RAIL_WIDTH,
    ROW_HEIGHT, Transform, VDD_RAIL_Y, VDD_STRAP_X, VSS_RAIL_Y, VSS_STRAP_X, WIRE_WIDTH,
};
use vlsi_base::{Name, Text};

/// Where an instance stands: where it begins, and in which row.
#[derive(Clone, Copy)]
struct Place {
    x: u64,
    row: u32,
}

/// The middle of a rail in a row: so high above its foot, or so high where the row is upside down.
fn rail_y(row: usize, upright: u16, turned: u16) -> u64
    requires { row ≤ 256 }
    ensures value { result ≡ rail_y upright turned row }
    ensures near { result ≤ 200000000000000 }
{
    let foot = u64::from(ROW_HEIGHT) * row as u64;
    if row % 2 == 0 {
        foot + u64::from(upright)
    } else {
        foot + u64::from(turned)
    }
}

/// The middles of the rails of one supply, from the lowest row up.
fn rail_ys(alloc: Global, rows: usize, upright: u16, turned: u16) -> Result<Vec<u64>, AllocError>
    requires { rows ≤ 256 }
    ensures value { IfOk result (λ ys. ys.items ≡ rail_ys upright turned rows) }
    ensures many { IfOk result (λ ys. length ys.items ≡ rows) }
    ensures near { IfOk result (λ ys. All (λ y. y ≤ 200000000000000) ys.items) }
{
    let mut ys = Vec::new(alloc);
    for row in 0..rows {
        ys.push(rail_y(row, upright, turned))?;
    }
    Ok(ys)
}

/// Adds the rail of a supply, up to the end of the rows.
fn push_rail(
    alloc: Global,
    items: &mut Items,
    end: u64,
    y: u64,
    name: &Name,
) -> Result<(), AllocError>
    requires end { end ≤ 100000000000000 }
    requires high { y ≤ 200000000000000 }
    ensures { OnOk result (items.new ≡ items.old ++ rail (pos end) (pos y) name.now ∷ []) }
{
    let rail = Wire {
        layer: Layer::Alu(Level::One),
        width: RAIL_WIDTH,
        direction: Direction::Right,
        from: Spot {
            x: u64::from(VSS_STRAP_X),
            y,
        },
        to: Spot { x: end, y },
    };
    push_wire(alloc, items, rail, Some(name))
}

/// Adds the rails of so many rows, row by row.
fn push_rails(
    alloc: Global,
    items: &mut Items,
    end: u64,
    low: &[u64],
    high: &[u64],
) -> Result<(), AllocError>
    requires end { end ≤ 100000000000000 }
    requires each { length high.now ≡ length low.now }
    requires low { All (λ y. y ≤ 200000000000000) low.now }
    requires high { All (λ y. y ≤ 200000000000000) high.now }
    ensures { OnOk result (items.new ≡ items.old ++ row_rails end low.now high.now) }
{
    let vss = scalar(alloc, b"vss")?;
    let vdd = scalar(alloc, b"vdd")?;
    for k in 0..low.len() {
        push_rail(alloc, items, end, low[k], &vss)?;
        push_rail(alloc, items, end, high[k], &vdd)?;
    }
    Ok(())
}

/// Adds the vias that tie a strap to the rails with these middles.
fn push_strap_vias(
    alloc: Global,
    items: &mut Items,
    x: u16,
    ys: &[u64],
    name: &Name,
) -> Result<(), AllocError>
    requires { All (λ y. y ≤ 200000000000000) ys.now }
    ensures { OnOk result (items.new ≡ items.old ++ strap_vias (pos x) name.now (map pos ys.now)) }
{
    for k in 0..ys.len() {
        let at = Spot {
            x: u64::from(x),
            y: ys[k],
        };
        push_via(alloc, items, Contact::Via1, at, Some(name))?;
        push_via(alloc, items, Contact::Via2, at, Some(name))?;
    }
    Ok(())
}

/// Adds the strap of a supply from the lowest to the highest of the rails with these middles, and its vias.
fn push_strap(
    alloc: Global,
    items: &mut Items,
    x: u16,
    ys: &[u64],
    name: &Name,
) -> Result<(), AllocError>
    requires { All (λ y. y ≤ 200000000000000) ys.now }
    ensures { OnOk result (items.new ≡ items.old ++ strap (pos x) name.now (map pos ys.now)) }
{
    if ys.is_empty() {
        return Ok(());
    }
    let from = Spot {
        x: u64::from(x),
        y: ys[0],
    };
    let to = Spot {
        x: u64::from(x),
        y: ys[ys.len() - 1],
    };
    let wire = Wire {
        layer: Layer::Alu(Level::Three),
        width: WIRE_WIDTH,
        direction: Direction::Up,
        from,
        to,
    };
    push_wire(alloc, items, wire, Some(name))?;
    push_strap_vias(alloc, items, x, ys, name)
}

/// Adds the rails of so many rows that are so wide, and both straps.
pub(crate) fn push_supplies(
    alloc: Global,
    items: &mut Items,
    width: u64,
    rows: usize,
) -> Result<(), AllocError>
    requires width { width ≤ 70000000000000 }
    requires rows { rows ≤ 256 }
    ensures { OnOk result (items.new ≡ items.old ++ supplies_over width rows) }
{
    let low = rail_ys(alloc, rows, VSS_RAIL_Y, VDD_RAIL_Y)?;
    let high = rail_ys(alloc, rows, VDD_RAIL_Y, VSS_RAIL_Y)?;
    push_rails(alloc, items, u64::from(FIRST_CELL_X) + width, &low, &high)?;
    push_straps(alloc, items, &low, &high)
}

/// Adds the strap of vss, and that of vdd, over the rails with these middles.
fn push_straps(
    alloc: Global,
    items: &mut Items,
    low: &[u64],
    high: &[u64],
) -> Result<(), AllocError>
    requires low { All (λ y. y ≤ 200000000000000) low.now }
    requires high { All (λ y. y ≤ 200000000000000) high.now }
    ensures { OnOk result (items.new ≡ items.old ++ both_straps (map pos low.now) (map pos high.now)) }
{
    let vss = scalar(alloc, b"vss")?;
    let vdd = scalar(alloc, b"vdd")?;
    push_strap(alloc, items, VSS_STRAP_X, low, &vss)?;
    push_strap(alloc, items, VDD_STRAP_X, high, &vdd)
}

/// The column of the port of rank `k`, of so many above a block of so many columns.
fn port_column(count: usize, columns: u64, k: usize) -> u64
    requires rank { k < count }
    requires some { 1 ≤ columns }
    requires near { columns ≤ 200000000000 }
    ensures value { result ≡ port_column count columns k }
    ensures inside { result ≤ columns }
{
    1 + k as u64 * ((columns - 1) / count as u64)
}

/// Adds the ports that are no supplies, above so many rows in a block of so many columns: each in the column of its rank.
pub(crate) fn push_grid_ports(
    alloc: Global,
    items: &mut Items,
    names: &[Name],
    columns: u64,
    rows: usize,
) -> Result<(), AllocError>
    requires columns { columns ≤ 200000000000 }
    requires wide { length names.now < columns }
    requires rows { rows ≤ 256 }
    ensures { OnOk result (items.new ≡ items.old ++ grid_ports (port_column (length names.now) columns) rows 0 names.now) }
{
    let y = u64::from(ROW_HEIGHT) * rows as u64 + u64::from(PITCH);
    for k in 0..names.len() {
        let column = port_column(names.len(), columns, k);
        let at = Spot {
            x: u64::from(FIRST_CELL_X) + u64::from(PITCH) * column,
            y,
        };
        north_port(alloc, items, at, &names[k])?;
    }
    Ok(())
}

/// How an instance in a row is turned.
fn turn_of(row: u32) -> Transform
    ensures { result ≡ turn_of (is_turned row) }
{
    if row % 2 == 0 {
        Transform::NoSym
    } else {
        Transform::SymY
    }
}

/// Adds an instance that stands there.
fn push_instance(
    alloc: Global,
    items: &mut Items,
    place: Place,
    model: &Text,
    name: &Text,
) -> Result<(), AllocError>
    requires { place.x ≤ 100000000000000 }
    ensures { OnOk result (items.new
        ≡ items.old ++ instance_item (stood (record { name = name.now; model = model.now }) place.x place.row) ∷ []) }
{
    let model = model.copy(alloc)?;
    let name = name.copy(alloc)?;
    items.push(Item::Instance(Instance {
        x: place.x as i64,
        y: (u64::from(ROW_HEIGHT) * u64::from(place.row)) as i64,
        model,
        name,
        transform: turn_of(place.row),
    }))
}

/// Adds the instances of a netlist that stand in rows, in its order.
pub(crate) fn push_stood(
    alloc: Global,
    items: &mut Items,
    netlist: &Netlist,
    placement: &Placement,
) -> Result<(), AllocError>
    requires starts { length placement.now.starts ≡ length netlist.now.instances }
    requires rows { length placement.now.row_numbers ≡ length netlist.now.instances }
    ensures { OnOk result (items.new
        ≡ items.old ++ stood_lines netlist.now.instances placement.now.starts placement.now.row_numbers) }
{
    let models = netlist.models();
    let nodes = netlist.nodes();
    let starts = placement.starts();
    let row_numbers = placement.row_numbers();
    for k in 0..nodes.len() {
        let node = &nodes[k];
        let place = Place {
            x: starts[k],
            row: row_numbers[k],
        };
        push_instance(alloc, items, place, &models[node.model], &node.name)?;
    }
    Ok(())
}
