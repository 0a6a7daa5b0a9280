// Faults of maps.
ghost use Rattle.std.specs.Prelude.{◌≡◌, ◌++◌, [], ◌&&◌, ◌||◌, nat_lt, length, map, is_some, is_none, IfOk, OnOk};
ghost use Rattle.std.specs.List.{flat_map, list_all};
ghost use Rattle.std.specs.Option.{option_or};
ghost use Rattle.std.specs.FinMap.{get};
ghost use Rattle.vlsi_base.specs.declared.name.Name.{Name};
ghost use Rattle.vlsi_base.specs.NamePlaces.{name_of, last_place};
ghost use Rattle.source_checks.specs.Lines.{first_line};
ghost use Rattle.source_checks.specs.Symbols.{find};
ghost use Rattle.net_core.specs.Checks.{pins_named};
ghost use Rattle.vst_io.specs.Nets.{nets, names};
ghost use Rattle.vst_io.specs.Faults.{is_net_port, is_tied, fits, association_faults, end_faults, instance_faults, bad_maps};

use crate::bits::{net_bits, pin_bits};
use crate::components::components_fault;
use crate::known::{Known, pin_names};
use source_checks::{Role, SymbolTable};
use std::alloc::{AllocError, Global};
use vlsi_base::{Name, NameIndex, is_supply};
use vst_text::{Association, InstanceStatement};

/// Whether there are such bits, each a pin that isn't mapped yet.
fn are_free<'a>(
    pins: &NameIndex<'a>,
    mapped: &NameIndex<'a>,
    text: &'a [u8],
    bits: &[Option<u32>],
) -> bool
    ensures { result ≡ (nat_lt 0 (length bits.now)
        && list_all (λ b. is_some (get pins.now (name_of text.now b)) && is_none (get mapped.now (name_of text.now b))) bits.now) }
{
    for bit in bits {
        if pins.find(text, *bit).is_none() || mapped.find(text, *bit).is_some() {
            return false;
        }
    }
    !bits.is_empty()
}

/// Puts bits of a pin among those that are mapped.
fn note<'a>(
    mapped: &mut NameIndex<'a>,
    text: &'a [u8],
    bits: &[Option<u32>],
) -> Result<(), AllocError>
    ensures { OnOk result ((n : Name) → get mapped.new n ≡ option_or (last_place (names text.now bits.now) n) (get mapped.old n)) }
{
    for (place, bit) in bits.iter().enumerate() {
        mapped.insert(text, *bit, place)?;
    }
    Ok(())
}

fn are_mapped<'a>(mapped: &NameIndex<'a>, names: &'a [Name]) -> bool
    ensures { result ≡ list_all (λ n. is_some (get mapped.now n)) names.now }
{
    for name in names {
        if mapped.find(name.text.as_bytes(), name.bit).is_none() {
            return false;
        }
    }
    true
}

/// Whether a name is that of a port.
fn is_net_port(nets: &SymbolTable, text: &[u8]) -> bool
    ensures { result ≡ is_net_port (find nets.now text.now) }
{
    match nets.find(text) {
        Some(symbol) => match symbol.role {
            Role::Input | Role::Output | Role::Both => true,
            Role::Inner | Role::Register => false,
        },
        None => false,
    }
}

/// Whether a pin that is a supply goes to the port of its name.
fn is_tied(nets: &SymbolTable, association: &Association) -> bool
    ensures { result ≡ is_tied nets.now association.now }
{
    let pin = association.pin.text.as_bytes();
    let net = association.net.name.as_bytes();
    !is_supply(pin) || (net == pin && is_net_port(nets, net))
}

/// Whether so many bits of a net are named, by which a supply is tied.
fn fits(
    alloc: Global,
    nets: &SymbolTable,
    association: &Association,
    width: usize,
) -> Result<bool, AllocError>
    ensures { IfOk result (λ r. r ≡ fits nets.now association.now width) }
{
    let bits = net_bits(alloc, nets, &association.net)?;
    Ok(bits.len() == width && is_tied(nets, association))
}

/// The first fault of an instance of a component with these pins.
fn map_fault<'a>(
    alloc: Global,
    known: &Known<'a>,
    component: &SymbolTable,
    instance: &'a InstanceStatement,
) -> Result<Option<u32>, AllocError>
    ensures { IfOk result (λ found. found ≡ first_line (
        association_faults component.now (nets known.now.file) (pins_named known.now.table instance.now.component) [] instance.now.associations
        ++ end_faults component.now (pins_named known.now.table instance.now.component) instance.now)) }
{
    let names = pin_names(alloc, known.model(&instance.component))?;
    let mut pins = NameIndex::new(alloc);
    pins.insert_all(&names)?;
    let mut mapped = NameIndex::new(alloc);
    for association in instance.associations.as_slice() {
        let text = association.pin.text.as_bytes();
        let bits = pin_bits(alloc, component, &association.pin)?;
        if !are_free(&pins, &mapped, text, &bits) {
            return Ok(Some(association.pin.line));
        }
        if !fits(alloc, known.nets(), association, bits.len())? {
            return Ok(Some(association.net.line));
        }
        note(&mut mapped, text, &bits)?;
    }
    if are_mapped(&mapped, &names) {
        Ok(None)
    } else {
        Ok(Some(instance.end_line))
    }
}

/// The first fault of an instance.
fn instance_fault<'a>(
    alloc: Global,
    known: &Known<'a>,
    instance: &'a InstanceStatement,
) -> Result<Option<u32>, AllocError>
    ensures { IfOk result (λ found. found ≡ first_line (instance_faults known.now.table known.now.file instance.now)) }
{
    match known.component(&instance.component) {
        Some(component) => map_fault(alloc, known, component, instance),
        None => Ok(Some(instance.component_line)),
    }
}

fn instances_fault<'a>(
    alloc: Global,
    known: &Known<'a>,
    instances: &'a [InstanceStatement],
) -> Result<Option<u32>, AllocError>
    ensures { IfOk result (λ found. found ≡ first_line (flat_map (instance_faults known.now.table known.now.file) instances.now)) }
{
    for instance in instances {
        let found = instance_fault(alloc, known, instance)?;
        if let Some(line) = found {
            return Ok(Some(line));
        }
    }
    Ok(None)
}

/// The line of the first place where a component isn't as its model, or a map doesn't fit.
#[tactic(auto, using(source_checks::proofs::FirstLines::first_line_append))]
pub fn map_faults(alloc: Global, known: &Known) -> Result<Option<u32>, AllocError>
    ensures { IfOk result (λ found. found ≡ first_line (bad_maps known.now.table known.now.file)) }
{
    let file = known.file();
    let found = components_fault(alloc, known, file.declarations.as_slice())?;
    match found {
        Some(line) => Ok(Some(line)),
        None => instances_fault(alloc, known, file.instances.as_slice()),
    }
}
