// The checks of a text before its netlist is made.
ghost use Rattle.std.specs.Prelude.{◌≡◌, ◌∷◌, [], ◌+◌, ◌-◌, ◌^◌, length, min, IfOk, OnOk, IfErr};
ghost use Rattle.std.specs.List.{sum_by};
ghost use Rattle.vlsi_base.specs.Names.{scalar};
ghost use Rattle.source_checks.specs.Checks.{fault};
ghost use Rattle.net_core.specs.Checks.{pins_named};
ghost use Rattle.vst_io.specs.Nets.{nets, port_bits};
ghost use Rattle.vst_io.specs.Faults.{bad_maps};
ghost use Rattle.vst_io.specs.Checked.{IsDeclared, IsChecked, IsFaultOf};

use crate::bits::port_bits;
use crate::components::unlisted;
use crate::forms::{form_fault, width_fault};
use crate::known::Known;
use crate::maps::map_faults;
use source_checks::repeated;
use std::alloc::{AllocError, Global};
use vlsi_base::{FaultKind, InputFault, Limit, LimitKind, Name, Names, Port, ReadError, Text};
use vst_text::InstanceStatement;

/// A fault with no names.
fn at_line(alloc: Global, kind: FaultKind, line: u32) -> ReadError
    ensures { result ≡ fault kind line [] }
{
    ReadError::Input(InputFault {
        line,
        kind,
        names: Names::new(Vec::new(alloc)),
    })
}

/// A fault with one name.
pub fn named(
    alloc: Global,
    kind: FaultKind,
    line: u32,
    text: &Text,
) -> Result<ReadError, AllocError>
    ensures { IfOk result (λ e. e ≡ fault kind line (scalar text.now ∷ [])) }
{
    let mut names = Vec::new(alloc);
    names.push(Name::scalar(text.copy(alloc)?))?;
    Ok(ReadError::Input(InputFault {
        line,
        kind,
        names: Names::new(names),
    }))
}

/// How many terminals there are with so many ports, or as many as a `u64` can tell.
fn terminal_count(known: &Known, instances: &[InstanceStatement], ports: usize) -> u64
    ensures { result ≡ min (ports + sum_by (λ i. length (pins_named known.now.table i.component)) instances.now) (2 ^ 64 - 1) }
{
    let mut count = ports as u64;
    for instance in instances {
        let pins = known.model(&instance.component);
        count = count.saturating_add(pins.len() as u64);
    }
    count
}

/// Checks the declarations of a text, and that its components are listed.
fn check_declarations(alloc: Global, known: &Known) -> Result<(), ReadError>
    ensures declared { OnOk result (IsDeclared known.now.table known.now.file) }
    ensures refused { IfErr result (λ e. IsFaultOf known.now.table known.now.file e) }
{
    let file = known.file();
    if let Some(line) = width_fault(file) {
        return Err(at_line(alloc, FaultKind::Width, line));
    }
    if let Some(line) = form_fault(file) {
        return Err(at_line(alloc, FaultKind::Unsupported, line));
    }
    match unlisted(known, file.declarations.as_slice()) {
        None => Ok(()),
        Some(component) => {
            let error = named(
                alloc,
                FaultKind::UnknownCell,
                component.line,
                &component.name,
            )?;
            Err(error)
        }
    }
}

/// Checks that a text with so many bits of ports has few terminals, and declares no net twice.
fn check_nets(alloc: Global, known: &Known, ports: usize) -> Result<(), ReadError>
    requires declared { IsDeclared known.now.table known.now.file }
    requires maps { bad_maps known.now.table known.now.file ≡ [] }
    requires ports { ports ≡ length (port_bits (nets known.now.file)) }
    ensures checked { OnOk result (IsChecked known.now.table known.now.file) }
    ensures refused { IfErr result (λ e. IsFaultOf known.now.table known.now.file e) }
{
    let count = terminal_count(known, known.file().instances.as_slice(), ports);
    if count > u64::from(u32::MAX) {
        return Err(ReadError::Limit(Limit {
            which: LimitKind::Bits,
            reached: count,
        }));
    }
    match repeated(known.nets()) {
        None => Ok(()),
        Some(symbol) => {
            let error = named(alloc, FaultKind::Twice, symbol.line, &symbol.text)?;
            Err(error)
        }
    }
}

/// Checks a text before its netlist is made; answers the bits of its ports, in file order.
pub fn checked(alloc: Global, known: &Known) -> Result<Vec<Port>, ReadError>
    ensures ports { IfOk result (λ ports. ports.items ≡ port_bits (nets known.now.file)) }
    ensures checked { OnOk result (IsChecked known.now.table known.now.file) }
    ensures refused { IfErr result (λ e. IsFaultOf known.now.table known.now.file e) }
{
    check_declarations(alloc, known)?;
    let found = map_faults(alloc, known)?;
    if let Some(line) = found {
        return Err(at_line(alloc, FaultKind::BadMap, line));
    }
    let ports = port_bits(alloc, known.nets().as_slice())?;
    check_nets(alloc, known, ports.len())?;
    Ok(ports)
}
