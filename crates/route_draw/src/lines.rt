// The lines that a figure is made of.
ghost use Rattle.std.specs.Prelude.{◌≡◌, ◌++◌, ◌∷◌, [], pos, OnOk, IfOk};
ghost use Rattle.std.specs.Option.{option_copied};
ghost use Rattle.vlsi_base.specs.Names.{scalar};
ghost use Rattle.sym_geom.specs.declared.grid.TheConstants.{WIRE_WIDTH as wire_width};
ghost use Rattle.sym_geom.specs.declared.layer.Layer.TheVariants.{Alu};
ghost use Rattle.sym_geom.specs.declared.layer.Level.TheVariants.{Three};
ghost use Rattle.ocp_rows.specs.Placement.{contact_at, north_port as north_port_of, west_port as west_port_of};
ghost use Rattle.route_draw.specs.Pieces.{IsNear, wire_line};

use std::alloc::{AllocError, Global};
use sym_geom::{
    Connector, Contact, Direction, Item, Items, Layer, Level, Segment, Side, Via, WIRE_WIDTH,
};
use vlsi_base::{Name, Text};

/// A point.
#[derive(Clone, Copy)]
pub(crate) struct Spot {
    pub(crate) x: u64,
    pub(crate) y: u64,
}

/// A piece of wire between two points.
#[derive(Clone, Copy)]
pub(crate) struct Wire {
    pub(crate) layer: Layer,
    pub(crate) width: u16,
    pub(crate) direction: Direction,
    pub(crate) from: Spot,
    pub(crate) to: Spot,
}

/// A port at the west side, but for its name.
#[derive(Clone, Copy)]
pub(crate) struct WestPort {
    pub(crate) layer: Layer,
    pub(crate) width: u16,
    pub(crate) at: Spot,
}

/// A copy of a name, if there is one.
pub(crate) fn label(alloc: Global, name: Option<&Name>) -> Result<Option<Name>, AllocError>
    ensures { IfOk result (λ made. made ≡ option_copied name.entry) }
{
    match name {
        None => Ok(None),
        Some(name) => Ok(Some(name.copy(alloc)?)),
    }
}

/// A name without a bit.
pub(crate) fn scalar(alloc: Global, text: &[u8]) -> Result<Name, AllocError>
    ensures { IfOk result (λ made. made ≡ scalar text.now) }
{
    Ok(Name::scalar(Text::from_bytes(alloc, text)?))
}

/// Adds a wire.
pub(crate) fn push_wire(
    alloc: Global,
    items: &mut Items,
    wire: Wire,
    name: Option<&Name>,
) -> Result<(), AllocError>
    requires from { IsNear wire.from }
    requires to { IsNear wire.to }
    ensures { OnOk result (items.new ≡ items.old ++ wire_line wire (option_copied name.entry) ∷ []) }
{
    let name = label(alloc, name)?;
    items.push(Item::Segment(Segment {
        x1: wire.from.x as i64,
        y1: wire.from.y as i64,
        x2: wire.to.x as i64,
        y2: wire.to.y as i64,
        width: i64::from(wire.width),
        name,
        direction: wire.direction,
        layer: wire.layer,
    }))
}

/// Adds a contact.
pub(crate) fn push_via(
    alloc: Global,
    items: &mut Items,
    contact: Contact,
    at: Spot,
    name: Option<&Name>,
) -> Result<(), AllocError>
    requires { IsNear at }
    ensures { OnOk result (items.new ≡ items.old ++ contact_at contact (pos at.x) (pos at.y) (option_copied name.entry) ∷ []) }
{
    let name = label(alloc, name)?;
    items.push(Item::Via(Via {
        x: at.x as i64,
        y: at.y as i64,
        contact,
        name,
    }))
}

/// Adds a port at the west side.
pub(crate) fn west_port(
    alloc: Global,
    items: &mut Items,
    port: WestPort,
    name: &Name,
) -> Result<(), AllocError>
    requires { IsNear port.at }
    ensures { OnOk result (items.new
        ≡ items.old ++ west_port_of port.layer (pos port.width) (pos port.at.x) (pos port.at.y) name.now ∷ []) }
{
    let name = name.copy(alloc)?;
    items.push(Item::Connector(Connector {
        x: port.at.x as i64,
        y: port.at.y as i64,
        width: i64::from(port.width),
        name: Some(name),
        index: 0,
        side: Side::West,
        layer: port.layer,
    }))
}

/// Adds a port at the north side, on metal 3.
pub(crate) fn north_port(
    alloc: Global,
    items: &mut Items,
    at: Spot,
    name: &Name,
) -> Result<(), AllocError>
    requires { IsNear at }
    ensures { OnOk result (items.new
        ≡ items.old ++ north_port_of (Alu Three) (pos wire_width) (pos at.x) (pos at.y) name.now ∷ []) }
{
    let name = name.copy(alloc)?;
    items.push(Item::Connector(Connector {
        x: at.x as i64,
        y: at.y as i64,
        width: i64::from(WIRE_WIDTH),
        name: Some(name),
        index: 0,
        side: Side::North,
        layer: Layer::Alu(Level::Three),
    }))
}
