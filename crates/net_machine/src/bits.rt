// The bits of a netlist.
ghost use Rattle.std.specs.Prelude.{◌≡◌, ◌<◌, ◌≤◌, ◌+◌, ◌^◌, ◌++◌, [], ℕ, map, length, IfOk, OnOk};
ghost use Rattle.std.specs.Option.{option_copied};
ghost use Rattle.std.specs.List.{All};
ghost use Rattle.vlsi_base.specs.Range.{rising};
ghost use Rattle.bool_expr.specs.Expression.{IsOver};
ghost use Rattle.bool_expr.specs.View.{view};
ghost use Rattle.bool_expr.specs.Renumbering.{renumbered as renumbered_by};
ghost use Rattle.source_bits.specs.Driven.{driven_view, stored_view};
ghost use Rattle.net_core.specs.Places.{IsThere};
ghost use Rattle.net_core.specs.Netlist.{pin_of, terminals};
ghost use Rattle.net_machine.specs.Body.{load_view, value_view, shown_view, body_view, width};
ghost use Rattle.net_machine.specs.Bits.{own_name, is_signal, fixed_bit, port_names, port_inputs, own_of, port_driven, classes_driven, numbers, stored_from, inner_from, shown_from, body_stored, body_driven, instances_stored, instances_driven, widths, first_base, bits_of};
ghost use Rattle.net_machine.specs.Gathered.{bits_count, HasPins, IsBodyOver, IsLonger, Gathers, ForClasses, ForKnown, AreKnown, AreBitsOf};

use crate::body::{Body, Load, Shown, Value};
use crate::clock::class_of;
use crate::known::Known;
use bit_machine::{BitSystem, DrivenBit, StoredBit};
use bool_expr::{Expr, renumbered};
use net_core::Netlist;
use std::alloc::{AllocError, Global};
use vlsi_base::{Dir, Name, Names, Port, Text, is_supply};

/// A text that is longer than that of each port, and than those of the supplies.
fn own_text(alloc: Global, ports: &[Port]) -> Result<Text, AllocError>
    ensures { IfOk result (λ text. IsLonger ports.now text) }
{
    let mut longest = 3;
    for port in ports {
        let length = port.name.text.as_bytes().len();
        if longest < length {
            longest = length;
        }
    }
    let mut bytes = vec![in alloc; b'x'; longest]?;
    bytes.push(b'x')?;
    Ok(Text::new(bytes))
}

fn own_name(alloc: Global, text: &Text, number: u32) -> Result<Name, AllocError>
    ensures { IfOk result (λ name. name ≡ own_name text.now number) }
{
    Ok(Name {
        text: text.copy(alloc)?,
        bit: Some(number),
    })
}

/// Puts names of so many bits, from a number on, behind those that are there.
fn push_own_names(
    alloc: Global,
    names: &mut Vec<Name>,
    text: &Text,
    first: u32,
    end: u32,
) -> Result<(), AllocError>
    requires { first ≤ end }
    ensures { OnOk result ((many : ℕ) → first + many ≡ end → names.new.items ≡ names.old.items ++ map (own_name text.now) (rising first many)) }
{
    for k in first..end {
        names.push(own_name(alloc, text, k)?)?;
    }
    Ok(())
}

/// Whether a port is no supply and not the clock.
fn is_signal(clock: Option<&Name>, port: &Port) -> bool
    ensures { result ≡ is_signal (option_copied clock.entry) port.now }
{
    if is_supply(port.name.text.as_bytes()) {
        return false;
    }
    match clock {
        Some(clock) => !clock.is_same(&port.name),
        None => true,
    }
}

/// Puts the names of the ports' bits behind those that are there.
fn push_port_names(
    alloc: Global,
    names: &mut Vec<Name>,
    text: &Text,
    clock: Option<&Name>,
    first: u32,
    ports: &[Port],
) -> Result<(), AllocError>
    requires { first + length ports.now < 2 ^ 32 }
    ensures { OnOk result (names.new.items ≡ names.old.items ++ port_names text.now (option_copied clock.entry) first ports.now) }
{
    let mut number = first;
    for port in ports {
        if is_signal(clock, port) {
            names.push(port.name.copy(alloc)?)?;
        } else {
            names.push(own_name(alloc, text, number)?)?;
        }
        number += 1;
    }
    Ok(())
}

/// The bits of the inputs but supplies and clock.
fn port_inputs(
    alloc: Global,
    clock: Option<&Name>,
    first: u32,
    ports: &[Port],
) -> Result<Vec<u32>, AllocError>
    requires { first + length ports.now < 2 ^ 32 }
    ensures { IfOk result (λ bits. bits.items ≡ port_inputs (option_copied clock.entry) first ports.now) }
{
    let mut bits = Vec::new(alloc);
    let mut number = first;
    for port in ports {
        if port.dir == Dir::In && is_signal(clock, port) {
            bits.push(number)?;
        }
        number += 1;
    }
    Ok(bits)
}

/// The bit that a supply or the clock stands as: 1 for vdd, 0 for vss and the clock.
fn fixed_bit(port: &Port) -> bool
    ensures { result ≡ fixed_bit port.now }
{
    port.name.text.as_bytes() == b"vdd".as_slice()
}

/// Puts what the bit of a port of this class has the value of behind what is there: an output's class, and what a supply and the
/// clock are.
fn push_port(
    driven: &mut Vec<DrivenBit>,
    clock: Option<&Name>,
    bit: u32,
    port: &Port,
    class: u32,
) -> Result<(), AllocError>
    ensures { OnOk result (map driven_view driven.new.items ≡ map driven_view driven.old.items
        ++ own_of (λ _. class) (option_copied clock.entry) bit port.now port.now.dir) }
{
    match port.dir {
        Dir::Out => driven.push(DrivenBit {
            bit,
            expr: Expr::Var(class),
        })?,
        Dir::In => {
            if !is_signal(clock, port) {
                driven.push(DrivenBit {
                    bit,
                    expr: Expr::Const(fixed_bit(port)),
                })?;
            }
        }
    }
    Ok(())
}

/// Puts the bits of outputs, of supplies and of the clock behind those that are there.
fn push_ports(
    driven: &mut Vec<DrivenBit>,
    clock: Option<&Name>,
    first: u32,
    ports: &[Port],
    classes: &[u32],
) -> Result<(), AllocError>
    requires few { first + length ports.now < 2 ^ 32 }
    requires classes { length ports.now ≤ length classes.now }
    ensures { OnOk result (Gathers ports.now classes.now (λ class. map driven_view driven.new.items
        ≡ map driven_view driven.old.items ++ port_driven class (option_copied clock.entry) first ports.now)) }
{
    for k in 0..ports.len() {
        push_port(driven, clock, first + k as u32, &ports[k], classes[k])?;
    }
    Ok(())
}

/// Puts the classes of inputs behind the bits that are there.
fn push_classes(
    driven: &mut Vec<DrivenBit>,
    first: u32,
    ports: &[Port],
    classes: &[u32],
) -> Result<(), AllocError>
    requires few { first + length ports.now < 2 ^ 32 }
    requires classes { length ports.now ≤ length classes.now }
    ensures { OnOk result (Gathers ports.now classes.now (λ class. map driven_view driven.new.items
        ≡ map driven_view driven.old.items ++ classes_driven class first ports.now)) }
{
    for k in 0..ports.len() {
        if ports[k].dir == Dir::In {
            driven.push(DrivenBit {
                bit: classes[k],
                expr: Expr::Var(first + k as u32),
            })?;
        }
    }
    Ok(())
}

/// The number behind the bits of a body.
fn next_base(base: u32, body: &Body) -> u32
    requires { base + width (body_view body.now) < 2 ^ 32 }
    ensures { result ≡ base + width (body_view body.now) }
{
    base + (body.loads.len() + body.inner.len()) as u32
}

/// The numbers of the bits of a body: the classes of the pins that it reads, and its own.
fn numbers(
    alloc: Global,
    netlist: &Netlist,
    owner: &Text,
    body: &Body,
    base: u32,
    end: u32,
) -> Result<Vec<u32>, AllocError>
    requires pins { All (λ pin. IsThere (terminals netlist.now) (pin_of owner.now pin)) body.now.reads.items }
    requires end { end ≡ base + width (body_view body.now) }
    ensures numbers { IfOk result (λ made. ForClasses netlist.now (λ class. made.items ≡ numbers class owner.now (body_view body.now) base)) }
    ensures count { IfOk result (λ made. length made.items ≡ bits_count (body_view body.now)) }
{
    let mut made = Vec::new(alloc);
    for pin in &body.reads {
        made.push(class_of(alloc, netlist, owner, pin)?)?;
    }
    for k in base..end {
        made.push(k)?;
    }
    Ok(made)
}

/// Puts what a body's bits load behind what is there.
fn push_loads(
    alloc: Global,
    stored: &mut Vec<StoredBit>,
    loads: &[Load],
    table: &[u32],
    base: u32,
) -> Result<(), AllocError>
    requires next { All (λ l. IsOver (view l.next) (length table.now)) loads.now }
    requires enable { All (λ l. IsOver (view l.enable) (length table.now)) loads.now }
    requires few { base + length loads.now < 2 ^ 32 }
    ensures { OnOk result (map stored_view stored.new.items ≡ map stored_view stored.old.items ++ stored_from table.now base (map load_view loads.now)) }
{
    let mut bit = base;
    for load in loads {
        let next = renumbered(alloc, &load.next, table)?;
        let enable = renumbered(alloc, &load.enable, table)?;
        stored.push(StoredBit { bit, next, enable })?;
        bit += 1;
    }
    Ok(())
}

/// Puts what a body's inner bits have the value of behind what is there.
fn push_inner(
    alloc: Global,
    driven: &mut Vec<DrivenBit>,
    inner: &[Expr],
    table: &[u32],
    first: u32,
) -> Result<(), AllocError>
    requires over { All (λ e. IsOver (view e) (length table.now)) inner.now }
    requires few { first + length inner.now < 2 ^ 32 }
    ensures { OnOk result (map driven_view driven.new.items ≡ map driven_view driven.old.items ++ inner_from table.now first (map view inner.now)) }
{
    let mut bit = first;
    for expr in inner {
        let expr = renumbered(alloc, expr, table)?;
        driven.push(DrivenBit { bit, expr })?;
        bit += 1;
    }
    Ok(())
}

/// What an output pin has the value of, by the numbers of a body's bits.
fn shown_value(alloc: Global, value: &Value, table: &[u32]) -> Result<Expr, AllocError>
    requires { IsOver (value_view value.now) (length table.now) }
    ensures { IfOk result (λ expr. view expr ≡ renumbered_by table.now (value_view value.now)) }
{
    match value {
        Value::Of(expr) => renumbered(alloc, expr, table),
        Value::Bit(place) => Ok(Expr::Var(table[*place])),
    }
}

/// Puts the classes of a body's output pins behind what is there.
fn push_shown(
    alloc: Global,
    netlist: &Netlist,
    owner: &Text,
    driven: &mut Vec<DrivenBit>,
    shows: &[Shown],
    table: &[u32],
) -> Result<(), AllocError>
    requires pins { All (λ s. IsThere (terminals netlist.now) (pin_of owner.now s.pin)) shows.now }
    requires over { All (λ s. IsOver (value_view s.value) (length table.now)) shows.now }
    ensures { OnOk result (ForClasses netlist.now (λ class. map driven_view driven.new.items
        ≡ map driven_view driven.old.items ++ shown_from class owner.now table.now (map shown_view shows.now))) }
{
    for shown in shows {
        let bit = class_of(alloc, netlist, owner, &shown.pin)?;
        let expr = shown_value(alloc, &shown.value, table)?;
        driven.push(DrivenBit { bit, expr })?;
    }
    Ok(())
}

/// Puts the bits of an instance behind those that are there.
fn push_instance(
    alloc: Global,
    netlist: &Netlist,
    owner: &Text,
    body: &Body,
    base: u32,
    system: &mut BitSystem,
) -> Result<u32, AllocError>
    requires pins { HasPins netlist.now owner.now (body_view body.now) }
    requires over { IsBodyOver (body_view body.now) }
    requires few { base + width (body_view body.now) < 2 ^ 32 }
    ensures next { IfOk result (λ next. next ≡ base + width (body_view body.now)) }
    ensures stored { OnOk result (ForClasses netlist.now (λ class. map stored_view system.new.stored.items
        ≡ map stored_view system.old.stored.items ++ body_stored class owner.now (body_view body.now) base)) }
    ensures driven { OnOk result (ForClasses netlist.now (λ class. map driven_view system.new.driven.items
        ≡ map driven_view system.old.driven.items ++ body_driven class owner.now (body_view body.now) base)) }
    ensures inputs { OnOk result (system.new.inputs.items ≡ system.old.inputs.items) }
    ensures names { OnOk result (system.new.names ≡ system.old.names) }
{
    let end = next_base(base, body);
    let table = numbers(alloc, netlist, owner, body, base, end)?;
    push_loads(alloc, &mut system.stored, &body.loads, &table, base)?;
    let first = base + body.loads.len() as u32;
    push_inner(alloc, &mut system.driven, &body.inner, &table, first)?;
    push_shown(
        alloc,
        netlist,
        owner,
        &mut system.driven,
        &body.shows,
        &table,
    )?;
    Ok(end)
}

/// Puts the bits of each instance in turn behind those that are there; the number behind them.
fn push_instances(
    alloc: Global,
    netlist: &Netlist,
    known: &[Known],
    first: u32,
    system: &mut BitSystem,
) -> Result<u32, AllocError>
    requires known { AreKnown netlist.now known.now }
    requires few { ForKnown netlist.now known.now (λ l. first + widths l netlist.now.instances < 2 ^ 32) }
    ensures end { IfOk result (λ end. ForKnown netlist.now known.now (λ l. end ≡ first + widths l netlist.now.instances)) }
    ensures stored { OnOk result (ForKnown netlist.now known.now (λ l. ForClasses netlist.now (λ class. map stored_view system.new.stored.items
        ≡ map stored_view system.old.stored.items ++ instances_stored l class first netlist.now.instances))) }
    ensures driven { OnOk result (ForKnown netlist.now known.now (λ l. ForClasses netlist.now (λ class. map driven_view system.new.driven.items
        ≡ map driven_view system.old.driven.items ++ instances_driven l class first netlist.now.instances))) }
    ensures inputs { OnOk result (system.new.inputs.items ≡ system.old.inputs.items) }
{
    let mut base = first;
    for node in netlist.nodes() {
        let body = &known[node.model].body;
        base = push_instance(alloc, netlist, &node.name, body, base, system)?;
    }
    Ok(base)
}

/// The bits of the ports, and the classes of inputs.
fn port_bits(
    alloc: Global,
    netlist: &Netlist,
    clock: Option<&Name>,
) -> Result<BitSystem, AllocError>
    requires { netlist.now.count + length netlist.now.ports < 2 ^ 32 }
    ensures inputs { IfOk result (λ s. s.inputs.items ≡ port_inputs (option_copied clock.entry) netlist.now.count netlist.now.ports) }
    ensures stored { IfOk result (λ s. s.stored.items ≡ []) }
    ensures driven { IfOk result (λ s. ForClasses netlist.now (λ class. map driven_view s.driven.items
        ≡ port_driven class (option_copied clock.entry) netlist.now.count netlist.now.ports ++ classes_driven class netlist.now.count netlist.now.ports)) }
{
    let ports = netlist.ports();
    let classes = netlist.classes();
    let first = netlist.count();
    let mut driven = Vec::new(alloc);
    push_ports(&mut driven, clock, first, ports, classes)?;
    push_classes(&mut driven, first, ports, classes)?;
    Ok(BitSystem {
        names: Names::new(Vec::new(alloc)),
        inputs: port_inputs(alloc, clock, first, ports)?,
        stored: Vec::new(alloc),
        driven,
    })
}

/// The names of all bits: of the classes, of the ports, and of those of the instances up to the last.
fn bit_names(
    alloc: Global,
    netlist: &Netlist,
    clock: Option<&Name>,
    first: u32,
    end: u32,
) -> Result<Names, AllocError>
    requires first { first ≡ netlist.now.count + length netlist.now.ports }
    requires end { first ≤ end }
    ensures { IfOk result (λ names. (text : _) × IsLonger netlist.now.ports text × ((many : ℕ) → first + many ≡ end → names
        ≡ map (own_name text) (rising 0 netlist.now.count) ++ (port_names text (option_copied clock.entry) netlist.now.count netlist.now.ports
        ++ map (own_name text) (rising first many)))) }
{
    let ports = netlist.ports();
    let count = netlist.count();
    let text = own_text(alloc, ports)?;
    let mut names = Vec::new(alloc);
    push_own_names(alloc, &mut names, &text, 0, count)?;
    push_port_names(alloc, &mut names, &text, clock, count, ports)?;
    push_own_names(alloc, &mut names, &text, first, end)?;
    Ok(Names::new(names))
}

/// The number of the first bit of an instance.
fn first_base(netlist: &Netlist) -> u32
    requires { first_base netlist.now < 2 ^ 32 }
    ensures { result ≡ first_base netlist.now }
{
    netlist.count() + netlist.ports().len() as u32
}

/// All bits of a netlist: one for each class, one for each port, and those of each instance. Takes memory and time for them, and for
/// each operator of the instances' cells.
pub fn gather(
    alloc: Global,
    netlist: &Netlist,
    known: &[Known],
    clock: Option<&Name>,
) -> Result<BitSystem, AllocError>
    requires known { AreKnown netlist.now known.now }
    requires few { ForKnown netlist.now known.now (λ l. bits_of netlist.now l < 2 ^ 32) }
    ensures { IfOk result (λ s. ForKnown netlist.now known.now (λ l. AreBitsOf netlist.now l (option_copied clock.entry) s)) }
{
    let first = first_base(netlist);
    let mut system = port_bits(alloc, netlist, clock)?;
    let end = push_instances(alloc, netlist, known, first, &mut system)?;
    system.names = bit_names(alloc, netlist, clock, first, end)?;
    Ok(system)
}
