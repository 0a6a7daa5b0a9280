// The instances of a placement by number, with the nets of their pins.
ghost use Rattle.std.specs.Prelude.{◌≡◌, ◌≤◌, ◌<◌, ◌^◌, ◌+◌, ◌++◌, false, [], map, take, drop, length, IfOk, OnOk};
ghost use Rattle.std.specs.List.{All};
ghost use Rattle.vlsi_base.specs.Names.{scalar};
ghost use Rattle.machine_core.specs.Named.{is_same_name};
ghost use Rattle.cell_checks.specs.Checked.{IsChecked as HasPassed};
ghost use Rattle.net_core.specs.Netlist.{IsNetlist};
ghost use Rattle.net_meaning.specs.Netlist.{AbstractNetlist as Seen};
ghost use Rattle.net_right.specs.View.{IsSeenAs};
ghost use Rattle.row_meaning.specs.Length.{block_of};
ghost use Rattle.ocp_rows.specs.Placement.{port_column};
ghost use Rattle.ocp_place.specs.Drawable.{IsDrawableIn};
ghost use Rattle.ocp_place.specs.Placed.{IsRowPlacementOf};
ghost use Rattle.ocp_place.specs.Ports.{class_named};
ghost use Rattle.ocp_anneal.specs.Cells.{reached_pins, port_pins, AreNets, other_nets, signal_nets, AreInstances, AreParts, placed_block};

use cell_checks::Library;
use cell_pins::is_scalar;
use net_core::Netlist;
use ocp_place::{PinReach, Placement, reaches};
use row_meaning::{Cells, Pin};
use std::alloc::{AllocError, Global};
use sym_geom::{FIRST_CELL_X, PITCH, ROW_HEIGHT};
use vlsi_base::Name;

/// A pin, and the class of its net.
#[derive(Clone, Copy)]
pub(crate) struct Tied {
    pub(crate) class: u32,
    pub(crate) pin: Pin,
}

/// How wide cells are, and the pins of all of them.
#[derive(Drop)]
pub(crate) struct Parts {
    pub(crate) widths: Vec<u64>,
    pub(crate) pins: Vec<Tied>,
}

/// Puts the pins of a cell of this number behind the others, where all its pins have these classes.
fn put_pins(
    pins: &mut Vec<Tied>,
    reached: &[PinReach],
    classes: &[u32],
    cell: u32,
) -> Result<(), AllocError>
    requires { All (λ r. r.place < length classes.now) reached.now }
    ensures { OnOk result (pins.new.items ≡ pins.old.items ++ reached_pins cell classes.now reached.now) }
{
    for reach in reached {
        let class = classes[reach.place];
        if let Some(point) = reach.point {
            let pin = Pin {
                cell,
                x: point.x,
                y: point.y,
            };
            pins.push(Tied { class, pin })?;
        }
    }
    Ok(())
}

/// So many of the classes, from the first on.
fn classes_from<'c>(classes: &'c [u32], first: u32, many: usize) -> &'c [u32]
    requires { first + many ≤ length classes.now }
    ensures { result.now ≡ take many (drop first classes.now) }
{
    let start = first as usize;
    &classes[start..start + many]
}

/// The widths and the signal pins of a netlist's instances.
pub(crate) fn instances_of(
    alloc: Global,
    netlist: &Netlist,
    library: &Library,
) -> Result<Parts, AllocError>
    requires library { HasPassed false library.now }
    requires netlist { IsDrawableIn library.now netlist.now }
    ensures parts { IfOk result (λ parts. (k : Seen) → IsSeenAs netlist.now k → AreInstances k library.now parts) }
    ensures few { IfOk result (λ parts. length parts.widths.items < 2 ^ 32) }
{
    let reaches = reaches(alloc, library, netlist.models())?;
    let classes = netlist.classes();
    let nodes = netlist.nodes();
    let mut widths = Vec::new(alloc);
    let mut pins = Vec::new(alloc);
    for k in 0..nodes.len() {
        let node = &nodes[k];
        let own = classes_from(classes, node.first, node.pins.as_slice().len());
        widths.push(reaches[node.model].width)?;
        put_pins(&mut pins, &reaches[node.model].pins, own, k as u32)?;
    }
    Ok(Parts { widths, pins })
}

/// The column of the port of rank `k`, of so many above a block of so many columns.
fn port_column(count: usize, columns: u64, k: usize) -> u64
    requires rank { k < count }
    requires some { 1 ≤ columns }
    requires near { columns ≤ 200000000000 }
    ensures value { result ≡ port_column count columns k }
    ensures inside { result ≤ columns }
{
    1 + k as u64 * ((columns - 1) / count as u64)
}

/// Puts ports with these classes behind the other pins, above so many rows, in a block of so many columns: each in the column of its
/// rank, as a pin of the cell behind the instances.
fn put_ports(parts: &mut Parts, ports: &[u32], columns: u64, rows: usize) -> Result<(), AllocError>
    requires few { length parts.old.widths.items < 2 ^ 32 }
    requires some { 1 ≤ columns }
    requires columns { columns ≤ 200000000000 }
    requires rows { rows ≤ 256 }
    ensures widths { OnOk result (parts.new.widths.items ≡ parts.old.widths.items) }
    ensures pins { OnOk result (parts.new.pins.items
        ≡ parts.old.pins.items ++ port_pins (port_column (length ports.now) columns) rows (length parts.old.widths.items) 0 ports.now) }
{
    let cell = parts.widths.len() as u32;
    let y = u64::from(ROW_HEIGHT) * rows as u64 + u64::from(PITCH);
    for k in 0..ports.len() {
        let column = port_column(ports.len(), columns, k);
        let x = u64::from(FIRST_CELL_X) + u64::from(PITCH) * column;
        let pin = Pin { cell, x, y };
        parts.pins.push(Tied {
            class: ports[k],
            pin,
        })?;
    }
    Ok(())
}

/// The cells of a placed netlist, with the one that holds the ports.
fn parts_of(
    alloc: Global,
    placement: &Placement,
    netlist: &Netlist,
    library: &Library,
) -> Result<Parts, AllocError>
    requires { IsRowPlacementOf library.now netlist.now placement.now }
    ensures { IfOk result (λ parts. (k : Seen) → IsSeenAs netlist.now k → AreParts k library.now placement.now parts) }
{
    let mut parts = instances_of(alloc, netlist, library)?;
    let columns = placement.width() / u64::from(PITCH);
    put_ports(
        &mut parts,
        placement.ports(),
        columns,
        placement.rows().len(),
    )?;
    parts
        .widths
        .push(u64::from(FIRST_CELL_X) + u64::from(PITCH) * (columns + 1))?;
    Ok(parts)
}

/// No pins for each of so many classes.
fn no_nets(alloc: Global, count: u32) -> Result<Vec<Vec<Pin>>, AllocError>
    ensures many { IfOk result (λ nets. length nets.items ≡ count) }
    ensures empty { IfOk result (λ nets. AreNets [] nets.items) }
{
    let mut nets = Vec::new(alloc);
    for _ in 0..count {
        nets.push(Vec::new(alloc))?;
    }
    Ok(nets)
}

/// Pins by their classes, of which there are so many. Takes memory for each class and each pin.
fn grouped(alloc: Global, count: u32, pins: &[Tied]) -> Result<Vec<Vec<Pin>>, AllocError>
    requires { All (λ t. t.class < count) pins.now }
    ensures many { IfOk result (λ nets. length nets.items ≡ count) }
    ensures nets { IfOk result (λ nets. AreNets pins.now nets.items) }
{
    let mut nets = no_nets(alloc, count)?;
    for tied in pins {
        nets[tied.class as usize].push(tied.pin)?;
    }
    Ok(nets)
}

/// The same pins once more.
fn copied(alloc: Global, pins: &[Pin]) -> Result<Vec<Pin>, AllocError>
    ensures { IfOk result (λ copy. copy.items ≡ pins.now) }
{
    let mut copy = Vec::new(alloc);
    copy.extend_from_slice(pins)?;
    Ok(copy)
}

/// The nets of the classes that are neither of two.
fn other_nets(
    alloc: Global,
    nets: &[Vec<Pin>],
    high: u32,
    low: u32,
) -> Result<Vec<Vec<Pin>>, AllocError>
    ensures { IfOk result (λ others. map (λ v. v.items) others.items ≡ other_nets high low (map (λ v. v.items) nets.now)) }
{
    let mut others = Vec::new(alloc);
    for class in 0..nets.len() {
        if class != high as usize && class != low as usize {
            others.push(copied(alloc, &nets[class])?)?;
        }
    }
    Ok(others)
}

/// Whether a name is this text without a bit.
fn is_named(name: &Name, text: &[u8]) -> bool
    ensures { result ≡ is_same_name name.now (scalar text.now) }
{
    is_scalar(name, text)
}

/// The class of the port with this text as its name; 0 where there is none.
fn class_of(netlist: &Netlist, text: &[u8]) -> u32
    requires { IsNetlist netlist.now }
    ensures { result ≡ class_named (λ p. is_same_name p.name (scalar text.now)) 0 netlist.now.ports netlist.now.classes }
{
    let ports = netlist.ports();
    let classes = netlist.classes();
    let mut class = 0;
    for k in 0..ports.len() {
        if is_named(&ports[k].name, text) {
            class = classes[k];
        }
    }
    class
}

/// The nets of pins, for each class but those of supplies.
fn nets_of(
    alloc: Global,
    netlist: &Netlist,
    library: &Library,
    pins: &[Tied],
) -> Result<Vec<Vec<Pin>>, AllocError>
    requires library { HasPassed false library.now }
    requires netlist { IsDrawableIn library.now netlist.now }
    requires pins { All (λ t. t.class < netlist.now.count) pins.now }
    ensures { IfOk result (λ nets. (k : Seen) → IsSeenAs netlist.now k → map (λ v. v.items) nets.items ≡ signal_nets k pins.now) }
{
    let _ = library;
    let nets = grouped(alloc, netlist.count(), pins)?;
    let high = class_of(netlist, b"vdd");
    let low = class_of(netlist, b"vss");
    let others = other_nets(alloc, &nets, high, low)?;
    Ok(others)
}

/// The cells of a placed netlist by number, with the nets of their pins. Takes memory for each instance and each terminal.
pub(crate) fn numbered(
    alloc: Global,
    placement: &Placement,
    netlist: &Netlist,
    library: &Library,
) -> Result<Cells, AllocError>
    requires { IsRowPlacementOf library.now netlist.now placement.now }
    ensures { IfOk result (λ cells. (k : Seen) → IsSeenAs netlist.now k → block_of cells ≡ placed_block k library.now placement.now) }
{
    let parts = parts_of(alloc, placement, netlist, library)?;
    let nets = nets_of(alloc, netlist, library, &parts.pins)?;
    Ok(Cells {
        left: u64::from(FIRST_CELL_X),
        widths: parts.widths,
        nets,
    })
}
