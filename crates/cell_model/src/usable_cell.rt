// Which cells a netlist may use.
ghost use Rattle.std.specs.Prelude.{◌≡◌, ◌↔◌, IsTrue, All, None};
ghost use Rattle.sym_geom.specs.Items.{lower_metal};
ghost use Rattle.cell_model.specs.View.{function_view};
ghost use Rattle.cell_model.specs.Library.{IsUsable};
ghost use Rattle.cell_model.specs.Usable.{IsPlainForm, IsScalarPin, IsMappable, IsFormed, IsLowLayer, IsLow};
ghost use Rattle.cell_model.specs.Connectors.{PinsAreConnectors};

use crate::{Cell, Function, Pin};
use sym_geom::{Contact, Item, Layer, Level, metal_of};

/// Whether a function is a gate or a plain flip-flop.
fn is_plain(function: &Function) -> bool
    ensures { IsTrue result ↔ IsPlainForm (function_view function.now) }
{
    match function {
        Function::Gate(_) => true,
        Function::FlipFlop { .. } => true,
        Function::Other(_) => false,
        Function::Opaque => false,
    }
}

fn are_scalars(pins: &[Pin]) -> bool
    ensures { IsTrue result ↔ All IsScalarPin pins.now }
{
    pins.iter().all(|pin| pin.port.name.bit.is_none())
}

fn is_low_layer(layer: Layer) -> bool
    ensures { IsTrue result ↔ IsLowLayer layer }
{
    match layer {
        Layer::Talu(level) => level == Level::One,
        _ => match metal_of(layer) {
            Some(metal) => metal <= 1,
            None => true,
        },
    }
}

/// Whether a contact joins no metals.
fn is_no_via(contact: &Contact) -> bool
    ensures { IsTrue result ↔ (lower_metal contact.now ≡ None) }
{
    match contact {
        Contact::Other(_) => true,
        _ => false,
    }
}

/// Whether a line neither draws nor blocks anything above metal 1.
fn is_low(item: &Item) -> bool
    ensures { IsTrue result ↔ IsLow item.now }
{
    match item {
        Item::Segment(segment) => is_low_layer(segment.layer),
        Item::Connector(connector) => is_low_layer(connector.layer),
        Item::Via(via) => is_no_via(&via.contact),
        Item::Instance(_) | Item::Reference(_) | Item::Remark(_) => true,
    }
}

fn are_low(items: &[Item]) -> bool
    ensures { IsTrue result ↔ All IsLow items.now }
{
    items.iter().all(|item| is_low(item))
}

/// Whether a cell is a gate or a plain flip-flop whose pins are scalars, with no shape and no TALU above metal 1. Takes no
/// memory.
#[tactic(auto, using(crate::proofs::Mapped::mapped, crate::proofs::Mapped::mapped_scalars, crate::proofs::Mapped::mapped_low))]
pub fn is_mappable(cell: &Cell) -> bool
    ensures { IsTrue result ↔ IsMappable cell.now }
{
    if !is_plain(cell.function.as_enum()) {
        return false;
    }
    if !are_scalars(cell.pins.as_slice()) {
        return false;
    }
    are_low(cell.items.as_slice())
}

/// Whether a netlist may use a cell whose pins are the connectors of its layout: exactly the mappable ones. Takes no memory.
#[tactic(auto, using(crate::proofs::Mapped::mappable_is_usable, crate::proofs::Mapped::usable_is_mappable))]
pub fn usable(cell: &Cell) -> bool
    requires formed { IsFormed cell.now }
    requires connectors { PinsAreConnectors cell.now }
    ensures { IsTrue result ↔ IsUsable cell.now }
{
    is_mappable(cell)
}
