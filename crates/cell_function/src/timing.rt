// What generics say of a cell: the capacitances of its pins, and how its output follows them.
ghost use Rattle.std.specs.Prelude.{◌≡◌, ◌++◌, codes, map, IfOk};
ghost use Rattle.cell_function.specs.Timing.{value_of, or_zero, capacitance_of, pin_of, arc_value, fall_of, rise_of, arc_of, begins_arc, arcs_to, arcs_of};

use crate::shape::only_output;
use cell_model::{Arc, Function, Pin};
use std::alloc::{AllocError, Global};
use vbe_io::GenericValue;
use vlsi_base::{Dir, Listed, Name, Port, Text};

/// Pins in their order.
pub type Pins = Listed<Pin>;

/// Arcs in their order.
pub type Arcs = Listed<Arc>;

/// How an output's edge follows an opposite edge of another pin, an edge like it, and either.
#[derive(Drop)]
struct Edge {
    opposite: Option<u32>,
    alike: Option<u32>,
    either: Option<u32>,
    resistance: u32,
}

/// The number of the generic of this name.
fn value_of(generics: &[GenericValue], name: &[u8]) -> Option<u32>
    ensures { result ≡ value_of generics.now name.now }
{
    for generic in generics {
        if generic.name.as_bytes() == name {
            return generic.value;
        }
    }
    None
}

fn or_zero(value: Option<u32>) -> u32
    ensures { result ≡ or_zero value }
{
    value.unwrap_or(0)
}

fn capacitance(alloc: Global, generics: &[GenericValue], port: &Port) -> Result<u32, AllocError>
    ensures { IfOk result (λ c. c ≡ capacitance_of generics.now port.now) }
{
    if port.dir != Dir::In || port.name.bit.is_some() {
        return Ok(0);
    }
    let mut name = Text::from_bytes(alloc, b"cin_")?;
    name.append(port.name.text.as_bytes())?;
    Ok(or_zero(value_of(generics, name.as_bytes())))
}

fn measured_pin(alloc: Global, generics: &[GenericValue], port: &Port) -> Result<Pin, AllocError>
    ensures { IfOk result (λ pin. pin ≡ pin_of generics.now port.now) }
{
    let capacitance = capacitance(alloc, generics, port)?;
    let name = port.name.copy(alloc)?;
    let port = Port {
        name,
        dir: port.dir,
    };
    Ok(Pin { port, capacitance })
}

/// The pins of a cell with these port bits, each with the generic `cin_PIN` as its capacitance: 0 where there is none, and of
/// outputs and bits of vectors. Takes memory for them.
pub fn pins_of(alloc: Global, ports: &[Port], generics: &[GenericValue]) -> Result<Pins, AllocError>
    ensures { IfOk result (λ pins. pins ≡ map (pin_of generics.now) ports.now) }
{
    let mut pins = Vec::new(alloc);
    for port in ports {
        pins.push(measured_pin(alloc, generics, port)?)?;
    }
    Ok(Pins::new(pins))
}

/// A generic of the arc between two pins.
fn arc_value(
    alloc: Global,
    generics: &[GenericValue],
    word: &[u8],
    from: &Name,
    to: &Name,
) -> Result<Option<u32>, AllocError>
    ensures { IfOk result (λ v. v ≡ arc_value generics.now word.now from.now to.now) }
{
    let mut name = Text::from_bytes(alloc, word)?;
    name.append(from.text.as_bytes())?;
    name.append(b"_")?;
    name.append(to.text.as_bytes())?;
    Ok(value_of(generics, name.as_bytes()))
}

fn fall(
    alloc: Global,
    generics: &[GenericValue],
    from: &Name,
    to: &Name,
) -> Result<Edge, AllocError>
    ensures { IfOk result (λ edge. edge ≡ fall_of generics.now from.now to.now) }
{
    let opposite = arc_value(alloc, generics, b"tphl_", from, to)?;
    let alike = arc_value(alloc, generics, b"tpll_", from, to)?;
    let either = arc_value(alloc, generics, b"taf_", from, to)?;
    let resistance = or_zero(arc_value(alloc, generics, b"rdown_", from, to)?);
    Ok(Edge {
        opposite,
        alike,
        either,
        resistance,
    })
}

fn rise(
    alloc: Global,
    generics: &[GenericValue],
    from: &Name,
    to: &Name,
) -> Result<Edge, AllocError>
    ensures { IfOk result (λ edge. edge ≡ rise_of generics.now from.now to.now) }
{
    let opposite = arc_value(alloc, generics, b"tplh_", from, to)?;
    let alike = arc_value(alloc, generics, b"tphh_", from, to)?;
    let either = arc_value(alloc, generics, b"tar_", from, to)?;
    let resistance = or_zero(arc_value(alloc, generics, b"rup_", from, to)?);
    Ok(Edge {
        opposite,
        alike,
        either,
        resistance,
    })
}

fn arc_between(
    alloc: Global,
    generics: &[GenericValue],
    from: &Name,
    to: &Name,
) -> Result<Arc, AllocError>
    ensures { IfOk result (λ arc. arc ≡ arc_of generics.now from.now to.now) }
{
    let fall = fall(alloc, generics, from, to)?;
    let rise = rise(alloc, generics, from, to)?;
    Ok(Arc {
        from: from.copy(alloc)?,
        to: to.copy(alloc)?,
        tphl: fall.opposite,
        tpll: fall.alike,
        taf: fall.either,
        rdown: fall.resistance,
        tplh: rise.opposite,
        tphh: rise.alike,
        tar: rise.either,
        rup: rise.resistance,
    })
}

/// Whether an arc begins at a pin.
fn begins_arc(function: &Function, port: &Port) -> bool
    ensures { result ≡ begins_arc function.now port.now }
{
    match function {
        Function::Gate(_) => port.dir == Dir::In,
        Function::FlipFlop { data: _, clock } => clock.is_same(&port.name),
        Function::Other(_) | Function::Opaque => false,
    }
}

fn arcs_to(
    alloc: Global,
    function: &Function,
    ports: &[Port],
    generics: &[GenericValue],
    to: &Name,
) -> Result<Vec<Arc>, AllocError>
    ensures { IfOk result (λ arcs. arcs.items ≡ arcs_to function.now generics.now to.now ports.now) }
{
    let mut arcs = Vec::new(alloc);
    for port in ports {
        if begins_arc(function, port) {
            arcs.push(arc_between(alloc, generics, &port.name, to)?)?;
        }
    }
    Ok(arcs)
}

/// The arcs of a cell: from each input of a gate, and from the clock of a plain flip-flop, to the one output, in the order of the
/// port bits. An arc has them also where no generic speaks of it: its times are none then, and its resistances 0. Each time and
/// resistance is the generic of its word with the names of the two pins, such as `tphl_i0_nq`. A cell of another function has no
/// arcs, since no path goes through it. Takes memory for them.
pub fn arcs_of(
    alloc: Global,
    function: &Function,
    ports: &[Port],
    generics: &[GenericValue],
) -> Result<Arcs, AllocError>
    ensures { IfOk result (λ arcs. arcs ≡ arcs_of function.now ports.now generics.now) }
{
    match only_output(ports) {
        Some(to) => {
            let arcs = arcs_to(alloc, function, ports, generics, to)?;
            Ok(Arcs::new(arcs))
        }
        None => Ok(Arcs::new(Vec::new(alloc))),
    }
}
