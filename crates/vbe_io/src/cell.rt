// The reader of cells.
ghost use Rattle.std.specs.Prelude.{◌≡◌, ◌<◌, ◌^◌, length, false, IfOk, IfErr};
ghost use Rattle.std.specs.Option.{option_copied};
ghost use Rattle.machine_core.specs.Order.{AllDifferent};
ghost use Rattle.machine_core.specs.Machine.{names_of};
ghost use Rattle.source_checks.specs.Checks.{IsRefused};
ghost use Rattle.source_checks.specs.Operators.{HasShortExpressions};
ghost use Rattle.source_checks.specs.Symbols.{symbols, all_names};
ghost use Rattle.vbe_io.specs.Cell.{pin_bits, generic_values as values_among, leaves_out, pins_error, is_left_out, IsBehaviour, ArePins, IsCellText, IsCellRefusal, IsUnfit, IsPinsRefusal};

use crate::cell_text::{CellText, GenericValues, copies, generic_values, in_order, pins};
use crate::reader::written;
use machine_core::Machine;
use source_checks::DesignFile;
use std::alloc::{AllocError, Global};
use vlsi_base::{FaultKind, Limit, LimitKind, Port, Ports, ReadError, Text};
use vlsi_model::check_machine;

/// The most port bits that a cell may have.
const MOST_PORTS: usize = 4096;

/// What a text says beside its behaviour, its port bits in file order.
#[derive(Drop)]
struct Outline {
    name: Text,
    pins: Vec<Port>,
    generics: GenericValues,
}

fn leaves_out(kind: FaultKind) -> bool
    ensures { result ≡ leaves_out kind }
{
    match kind {
        FaultKind::Unsupported | FaultKind::ClockUse => true,
        _ => false,
    }
}

/// Whether a refusal is for an unsupported form, or for how the clock is used.
fn is_left_out(e: &ReadError) -> bool
    ensures { result ≡ is_left_out e.now }
{
    match e {
        ReadError::Input(fault) => leaves_out(fault.kind),
        ReadError::Memory | ReadError::Limit(_) => false,
    }
}

fn outlined(alloc: Global, design: &DesignFile) -> Result<Outline, AllocError>
    ensures name { IfOk result (λ made. made.name ≡ design.now.entity.name) }
    ensures pins { IfOk result (λ made. made.pins.items ≡ pin_bits (symbols design.now)) }
    ensures generics { IfOk result (λ made. made.generics ≡ values_among design.now.entity.generics) }
{
    let name = design.entity.name.copy(alloc)?;
    let pins = pins(alloc, design)?;
    let generics = generic_values(alloc, design.entity.generics.as_slice())?;
    Ok(Outline {
        name,
        pins,
        generics: GenericValues::new(generics),
    })
}

/// The machine of what is written; none where it has an unsupported form, or misuses the clock.
fn behaviour(alloc: Global, design: DesignFile) -> Result<Option<Machine>, ReadError>
    requires few { length (all_names (symbols design)) < 2 ^ 32 }
    requires short { HasShortExpressions design }
    ensures machine { IfOk result (λ machine. IsBehaviour design machine) }
    ensures refused { IfErr result (λ e. IsRefused design e) }
    ensures other { IfErr result (λ e. is_left_out e ≡ false) }
{
    match check_machine(alloc, design) {
        Ok(machine) => Ok(Some(machine)),
        Err(e) => { if is_left_out(&e) { Ok(None) } else { Err(e) } }
    }
}

fn too_many(pins: &[Port]) -> ReadError
    ensures { result ≡ pins_error pins.now }
{
    ReadError::Limit(Limit {
        which: LimitKind::Ports,
        reached: pins.len() as u64,
    })
}

/// The pins of a cell with these port bits.
fn ports_of(
    alloc: Global,
    machine: Option<&Machine>,
    pins: Vec<Port>,
) -> Result<Vec<Port>, ReadError>
    requires { AllDifferent (names_of pins.items) }
    ensures pins { IfOk result (λ ports. ArePins pins.items (option_copied machine.entry) ports.items) }
    ensures refused { IfErr result (λ e. IsPinsRefusal pins.items (option_copied machine.entry) e) }
{
    match machine {
        Some(machine) => {
            let ports = copies(alloc, machine.ports().as_slice())?;
            Ok(ports)
        }
        None => {
            if pins.len() > MOST_PORTS {
                return Err(too_many(&pins));
            }
            let ports = in_order(pins)?;
            Ok(ports)
        }
    }
}

/// The cell that is written.
fn completed(alloc: Global, outline: Outline, design: DesignFile) -> Result<CellText, ReadError>
    requires pins { outline.pins.items ≡ pin_bits (symbols design) }
    requires few { length (all_names (symbols design)) < 2 ^ 32 }
    requires short { HasShortExpressions design }
    ensures name { IfOk result (λ cell. cell.name ≡ outline.name) }
    ensures generics { IfOk result (λ cell. cell.generics ≡ outline.generics) }
    ensures machine { IfOk result (λ cell. IsBehaviour design cell.machine) }
    ensures pins { IfOk result (λ cell. ArePins (pin_bits (symbols design)) cell.machine cell.ports) }
    ensures refused { IfErr result (λ e. IsUnfit design e) }
{
    let machine = behaviour(alloc, design)?;
    let Outline {
        name,
        pins,
        generics,
    } = outline;
    let ports = ports_of(alloc, machine.as_ref(), pins)?;
    Ok(CellText {
        name,
        ports: Ports::new(ports),
        generics,
        machine,
    })
}

/// Reads the data-flow text of a cell: its pins, its generics, and its machine.
///
/// A text is read as `read_vbe` reads it, and refused for what that refuses, with two exceptions: where the first check that
/// fails is `Unsupported` or `ClockUse`, the cell is read without a machine. It is then refused with `Limit` of `Ports` where it
/// has more than 4096 port bits, and bits of mode inout count. Memory and time grow with the bytes and with the
/// bits of what is written.
pub fn read_cell_vbe(alloc: Global, bytes: &[u8]) -> Result<CellText, ReadError>
    ensures accepted { IfOk result (λ cell. IsCellText bytes.now cell) }
    ensures refused { IfErr result (λ e. IsCellRefusal bytes.now e) }
{
    let design = written(alloc, bytes)?;
    let outline = outlined(alloc, &design)?;
    completed(alloc, outline, design)
}
