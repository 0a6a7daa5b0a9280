// What a cell's text says beside its behaviour: its pins and its generics.
ghost use Rattle.std.specs.Prelude.{◌≡◌, ◌++◌, ◌∷◌, [], map, IfOk, OnOk};
ghost use Rattle.std.specs.List.Sorted.{IsPermutation};
ghost use Rattle.machine_core.specs.Checked.{AreInOrder};
ghost use Rattle.machine_core.specs.Order.{AllDifferent};
ghost use Rattle.machine_core.specs.Machine.{names_of};
ghost use Rattle.source_checks.specs.Elaboration.{port_of};
ghost use Rattle.source_checks.specs.Symbols.{symbols, symbol_names};
ghost use Rattle.vbe_io.specs.Cell.{pin_dir, symbol_pins, pin_bits, values_of, generic_values as values_among};

use machine_core::Machine;
use source_checks::{DesignFile, Role, Symbol, SymbolTable};
use std::alloc::{AllocError, Global};
use vlsi_base::{Dir, Generic, Listed, Name, Port, Ports, Text, is_supply};

/// A generic: its name in lower case, and the number behind `:=`, where there is one.
#[derive(Drop)]
pub struct GenericValue {
    pub name: Text,
    pub value: Option<u32>,
}

/// Generics in the order of the text.
pub type GenericValues = Listed<GenericValue>;

/// What the data-flow text of a cell says.
#[derive(Drop)]
pub struct CellText {
    /// The entity's name.
    pub name: Text,
    /// The port bits without vdd and vss, in the order of names; those of a port of mode inout count as outputs.
    pub ports: Ports,
    pub generics: GenericValues,
    /// What the cell does; none where its text has an unsupported form, or misuses the clock.
    pub machine: Option<Machine>,
}

/// The direction of a port's bits: those of mode inout count as outputs.
fn pin_dir(role: Role) -> Option<Dir>
    ensures { result ≡ pin_dir role }
{
    match role {
        Role::Input => Some(Dir::In),
        Role::Output | Role::Both => Some(Dir::Out),
        Role::Inner | Role::Register => None,
    }
}

/// Puts the port of one bit of a name behind those that are there.
fn push_bit(
    alloc: Global,
    ports: &mut Vec<Port>,
    text: &Text,
    bit: Option<u32>,
    dir: Dir,
) -> Result<(), AllocError>
    ensures { OnOk result (ports.new.items ≡ ports.old.items ++ port_of dir (record { text = text.now; bit = bit }) ∷ []) }
{
    let text = text.copy(alloc)?;
    ports.push(Port {
        name: Name { text, bit },
        dir,
    })?;
    Ok(())
}

/// Puts the bits of a declared name behind those that are there, from the left.
fn push_bits(
    alloc: Global,
    ports: &mut Vec<Port>,
    symbol: &Symbol,
    dir: Dir,
) -> Result<(), AllocError>
    ensures { OnOk result (ports.new.items ≡ ports.old.items ++ map (port_of dir) (symbol_names symbol.now)) }
{
    let Some(range) = symbol.range else {
        return push_bit(alloc, ports, &symbol.text, None, dir);
    };
    let bits = range.bits(alloc)?;
    for bit in &bits {
        push_bit(alloc, ports, &symbol.text, Some(*bit), dir)?;
    }
    Ok(())
}

/// Puts the pins that a declared name is behind those that are there: none for a supply and for what is no port.
fn push_pins(alloc: Global, ports: &mut Vec<Port>, symbol: &Symbol) -> Result<(), AllocError>
    ensures { OnOk result (ports.new.items ≡ ports.old.items ++ symbol_pins symbol.now) }
{
    if is_supply(symbol.text.as_bytes()) {
        return Ok(());
    }
    match pin_dir(symbol.role) {
        Some(dir) => push_bits(alloc, ports, symbol, dir),
        None => Ok(()),
    }
}

/// The bits of the ports but vdd and vss, in file order.
pub(crate) fn pins(alloc: Global, design: &DesignFile) -> Result<Vec<Port>, AllocError>
    ensures { IfOk result (λ ports. ports.items ≡ pin_bits (symbols design.now)) }
{
    let table = SymbolTable::new(alloc, design)?;
    let mut ports = Vec::new(alloc);
    let symbols = table.as_slice();
    for symbol in symbols {
        push_pins(alloc, &mut ports, symbol)?;
    }
    Ok(ports)
}

/// Port bits in the order of names.
pub(crate) fn in_order(ports: Vec<Port>) -> Result<Vec<Port>, AllocError>
    requires { AllDifferent (names_of ports.items) }
    ensures moved { IfOk result (λ sorted. IsPermutation ports.items sorted.items) }
    ensures ordered { IfOk result (λ sorted. AreInOrder (names_of sorted.items)) }
{
    let mut sorted = ports;
    sorted.sort_by(|a, b| a.name.compare(&b.name))?;
    Ok(sorted)
}

/// Equal port bits, on this allocator.
pub(crate) fn copies(alloc: Global, ports: &[Port]) -> Result<Vec<Port>, AllocError>
    ensures { IfOk result (λ made. made.items ≡ ports.now) }
{
    let mut made = Vec::new(alloc);
    for port in ports {
        let name = port.name.copy(alloc)?;
        made.push(Port {
            name,
            dir: port.dir,
        })?;
    }
    Ok(made)
}

/// Puts the generics of one type behind those that are there.
fn push_values(
    alloc: Global,
    values: &mut Vec<GenericValue>,
    generic: &Generic,
) -> Result<(), AllocError>
    ensures { OnOk result (values.new.items ≡ values.old.items ++ values_of generic.now) }
{
    let names = generic.names.as_slice();
    for name in names {
        let text = name.text.copy(alloc)?;
        values.push(GenericValue {
            name: text,
            value: generic.value,
        })?;
    }
    Ok(())
}

/// Each generic by itself, in file order.
pub(crate) fn generic_values(
    alloc: Global,
    generics: &[Generic],
) -> Result<Vec<GenericValue>, AllocError>
    ensures { IfOk result (λ values. values.items ≡ values_among generics.now) }
{
    let mut values = Vec::new(alloc);
    for generic in generics {
        push_values(alloc, &mut values, generic)?;
    }
    Ok(values)
}
