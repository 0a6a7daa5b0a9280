// Bits of declared names.
ghost use Rattle.std.specs.Prelude.{◌≡◌, ◌++◌, ◌∷◌, [], ◌&&◌, Some, map, IfOk, OnOk, if◌then◌else◌};
ghost use Rattle.vlsi_base.specs.Range.{is_ordered};
ghost use Rattle.source_checks.specs.Symbols.{find};
ghost use Rattle.source_checks.specs.Elaboration.{port_of, ports_of_role};
ghost use Rattle.vst_io.specs.Nets.{bits_of, holds, selected, pin_bits, net_bits, names, port_bits};

use source_checks::{Role, Selection, Symbol, SymbolTable, Target, has_bit};
use std::alloc::{AllocError, Global};
use vlsi_base::{Dir, Name, Port, Range, Text};
use vst_text::PinName;

/// The bits of a vector from the left; a scalar has one without a number.
fn bits_of(alloc: Global, range: Option<Range>) -> Result<Vec<Option<u32>>, AllocError>
    ensures { IfOk result (λ bits. bits.items ≡ bits_of range) }
{
    let mut bits = Vec::new(alloc);
    let Some(range) = range else {
        bits.push(None)?;
        return Ok(bits);
    };
    let numbers = range.bits(alloc)?;
    for number in &numbers {
        bits.push(Some(*number))?;
    }
    Ok(bits)
}

/// Whether a bit of this number lies in the declaration.
fn holds(range: Option<Range>, k: u32) -> bool
    ensures { result ≡ holds range k }
{
    match range {
        Some(range) => has_bit(range, k),
        None => false,
    }
}

/// One bit of a declared name; none where it doesn't lie in the declaration.
fn bit_of(alloc: Global, range: Option<Range>, k: u32) -> Result<Vec<Option<u32>>, AllocError>
    ensures { IfOk result (λ bits. bits.items ≡ (if holds range k then Some k ∷ [] else [])) }
{
    let mut bits = Vec::new(alloc);
    if holds(range, k) {
        bits.push(Some(k))?;
    }
    Ok(bits)
}

/// The bits of a part of a declared name; none where it doesn't lie in the declaration, or has its bounds in the wrong order.
fn part_of(alloc: Global, range: Option<Range>, part: Range) -> Result<Vec<Option<u32>>, AllocError>
    ensures { IfOk result (λ bits. bits.items ≡ (if is_ordered part && (holds range part.left && holds range part.right) then bits_of (Some part) else [])) }
{
    if part.is_ordered() && (holds(range, part.left) && holds(range, part.right)) {
        bits_of(alloc, Some(part))
    } else {
        Ok(Vec::new(alloc))
    }
}

/// The bits of a declared name that are selected, from the left; none where there are no such bits.
fn selected(
    alloc: Global,
    known: &SymbolTable,
    text: &[u8],
    selection: Selection,
) -> Result<Vec<Option<u32>>, AllocError>
    ensures { IfOk result (λ bits. bits.items ≡ selected (find known.now text.now) selection) }
{
    let Some(symbol) = known.find(text) else {
        return Ok(Vec::new(alloc));
    };
    match selection {
        Selection::Whole => bits_of(alloc, symbol.range),
        Selection::Bit(k) => bit_of(alloc, symbol.range, k),
        Selection::Bits(part) => part_of(alloc, symbol.range, part),
    }
}

/// The bits of a component's pin that are named, from the left; none where there are no such bits.
pub fn pin_bits(
    alloc: Global,
    known: &SymbolTable,
    pin: &PinName,
) -> Result<Vec<Option<u32>>, AllocError>
    ensures { IfOk result (λ bits. bits.items ≡ pin_bits known.now pin.now) }
{
    let selection = match pin.bit {
        Some(k) => Selection::Bit(k),
        None => Selection::Whole,
    };
    selected(alloc, known, pin.text.as_bytes(), selection)
}

/// The bits of a net that are named, from the left; none where there are no such bits.
pub fn net_bits(
    alloc: Global,
    known: &SymbolTable,
    net: &Target,
) -> Result<Vec<Option<u32>>, AllocError>
    ensures { IfOk result (λ bits. bits.items ≡ net_bits known.now net.now) }
{
    selected(alloc, known, net.name.as_bytes(), net.selection)
}

/// Puts the bits of a port behind those that are there, from the left.
fn push_bits(
    alloc: Global,
    ports: &mut Vec<Port>,
    text: &Text,
    range: Option<Range>,
    dir: Dir,
) -> Result<(), AllocError>
    ensures { OnOk result (ports.new.items ≡ ports.old.items ++ map (port_of dir) (names text.now (bits_of range))) }
{
    let bits = bits_of(alloc, range)?;
    for bit in &bits {
        let name = Name {
            text: text.copy(alloc)?,
            bit: *bit,
        };
        ports.push(Port { name, dir })?;
    }
    Ok(())
}

/// Puts the bits of a declared name behind those that are there, if it is a port.
fn push_symbol(alloc: Global, ports: &mut Vec<Port>, symbol: &Symbol) -> Result<(), AllocError>
    ensures { OnOk result (ports.new.items ≡ ports.old.items
        ++ ports_of_role symbol.now.role (names symbol.now.text (bits_of symbol.now.range))) }
{
    match symbol.role {
        Role::Input => push_bits(alloc, ports, &symbol.text, symbol.range, Dir::In),
        Role::Output => push_bits(alloc, ports, &symbol.text, symbol.range, Dir::Out),
        Role::Both | Role::Inner | Role::Register => Ok(()),
    }
}

/// The bits of all ports among declared names, with their directions, in file order.
pub fn port_bits(alloc: Global, known: &[Symbol]) -> Result<Vec<Port>, AllocError>
    ensures { IfOk result (λ ports. ports.items ≡ port_bits known.now) }
{
    let mut ports = Vec::new(alloc);
    for symbol in known {
        push_symbol(alloc, &mut ports, symbol)?;
    }
    Ok(ports)
}
