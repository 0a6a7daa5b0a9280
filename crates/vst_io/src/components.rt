// Faults of components.
ghost use Rattle.std.specs.Prelude.{◌≡◌, ◌&&◌, IfOk};
ghost use Rattle.std.specs.List.{flat_map, list_all};
ghost use Rattle.std.specs.Option.{option_copied};
ghost use Rattle.source_checks.specs.Lines.{first_line};
ghost use Rattle.vst_io.specs.Nets.{components};
ghost use Rattle.vst_io.specs.Faults.{first_unlisted, lies_in, goes, is_declared_pin, has_pins, component_faults};

use crate::bits::port_bits;
use crate::known::Known;
use net_core::ModelPin;
use source_checks::{Role, SymbolTable, has_bit};
use std::alloc::{AllocError, Global};
use vlsi_base::{Dir, Range};
use vst_text::{Component, Declaration};

/// The first component that the table doesn't list.
pub fn unlisted<'f>(known: &Known, declarations: &'f [Declaration]) -> Option<&'f Component>
    ensures { option_copied result ≡ first_unlisted known.now.table (components declarations.now) }
{
    for declaration in declarations {
        if let Declaration::Component(component) = declaration {
            if !known.lists(&component.name) {
                return Some(component);
            }
        }
    }
    None
}

/// Whether a bit lies in a declaration, or both have no number.
fn lies_in(range: Option<Range>, bit: Option<u32>) -> bool
    ensures { result ≡ lies_in range bit }
{
    match (range, bit) {
        (None, None) => true,
        (Some(range), Some(k)) => has_bit(range, k),
        _ => false,
    }
}

fn goes(role: Role, dir: Dir) -> bool
    ensures { result ≡ goes role dir }
{
    match (role, dir) {
        (Role::Input, Dir::In) => true,
        (Role::Output, Dir::Out) => true,
        _ => false,
    }
}

/// Whether a model's pin is a bit of a component's port, with its direction.
fn is_declared_pin(known: &SymbolTable, pin: &ModelPin) -> bool
    ensures { result ≡ is_declared_pin known.now pin.now }
{
    match known.find(pin.name.text.as_bytes()) {
        Some(symbol) => lies_in(symbol.range, pin.name.bit) && goes(symbol.role, pin.dir),
        None => false,
    }
}

fn are_declared_pins(known: &SymbolTable, model: &[ModelPin]) -> bool
    ensures { result ≡ list_all (is_declared_pin known.now) model.now }
{
    model.iter().all(|pin| is_declared_pin(known, pin))
}

/// Whether the ports of a component are the pins of its model.
fn has_pins(alloc: Global, known: &SymbolTable, model: &[ModelPin]) -> Result<bool, AllocError>
    ensures { IfOk result (λ r. r ≡ has_pins known.now model.now) }
{
    let bits = port_bits(alloc, known.as_slice())?;
    Ok(bits.len() == model.len() && are_declared_pins(known, model))
}

/// The line of a component whose ports aren't the pins of its model.
fn component_fault(
    alloc: Global,
    known: &Known,
    declaration: &Declaration,
) -> Result<Option<u32>, AllocError>
    ensures { IfOk result (λ found. found ≡ first_line (component_faults known.now.table declaration.now)) }
{
    let Declaration::Component(component) = declaration else {
        return Ok(None);
    };
    let pins = SymbolTable::empty(alloc).with_ports(alloc, component.ports.as_slice())?;
    if has_pins(alloc, &pins, known.model(&component.name))? {
        Ok(None)
    } else {
        Ok(Some(component.line))
    }
}

/// The line of the first component whose ports aren't the pins of its model.
pub fn components_fault(
    alloc: Global,
    known: &Known,
    declarations: &[Declaration],
) -> Result<Option<u32>, AllocError>
    ensures { IfOk result (λ found. found ≡ first_line (flat_map (component_faults known.now.table) declarations.now)) }
{
    for declaration in declarations {
        let found = component_fault(alloc, known, declaration)?;
        if let Some(line) = found {
            return Ok(Some(line));
        }
    }
    Ok(None)
}
