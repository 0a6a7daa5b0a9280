// The reader.
ghost use Rattle.std.specs.Prelude.{◌≡◌, ◌≤◌, ◌<◌, None, IfOk, OnOk, IfErr, filter, not, length};
ghost use Rattle.vhdl_lexer.specs.Listing.{tokens_in, refusal_in};
ghost use Rattle.vlsi_base.specs.Name.{is_supply};
ghost use Rattle.net_core.specs.Checks.{Fits, Passes, IsPinTable};
ghost use Rattle.net_right.specs.Condition.{MeetsCondition};
ghost use Rattle.net_core.specs.Places.{IsThere};
ghost use Rattle.vst_text.specs.declared.file.InstanceStatement.{InstanceStatement};
ghost use Rattle.vst_io.specs.Faults.{first_fault};
ghost use Rattle.vst_io.specs.Checked.{IsChecked, IsFaultOf, IsUnsound};
ghost use Rattle.vst_io.specs.Text.{IsWritten, IsNetlistOf, IsVst, IsVstRefusal, ListsSupplies};

use crate::build::netlist_of;
use crate::checking::checked;
use crate::known::{Known, components};
use net_core::{CheckError, Netlist, PinTable, check};
use std::alloc::Global;
use vhdl_lexer::tokens;
use vhdl_token::Tokens;
use vlsi_base::{InputFault, Limit, LimitKind, MOST_NETLIST_BYTES, Port, ReadError, is_supply};
use vst_text::{StructuralFile, read_structure};

/// The most port bits without vdd and vss.
const MOST_PORTS: usize = 4096;

// The tokens of a text that isn't too long.
fn tokens_of(alloc: Global, bytes: &[u8], table: &PinTable) -> Result<Tokens, ReadError>
    ensures few { IfOk result (λ _. length bytes.now ≤ MOST_NETLIST_BYTES) }
    ensures cut { IfOk result (λ read. (refusal_in bytes.now ≡ None) × (read ≡ tokens_in bytes.now)) }
    ensures refused { IfErr result (λ e. IsVstRefusal bytes.now table.now e) }
{
    if bytes.len() > MOST_NETLIST_BYTES {
        return Err(ReadError::Limit(Limit {
            which: LimitKind::File,
            reached: MOST_NETLIST_BYTES as u64 + 1,
        }));
    }
    tokens(alloc, bytes)
}

// What is written in a text.
fn written(alloc: Global, bytes: &[u8], table: &PinTable) -> Result<StructuralFile, ReadError>
    ensures written { IfOk result (λ file. IsWritten bytes.now file) }
    ensures refused { IfErr result (λ e. IsVstRefusal bytes.now table.now e) }
{
    let tokens = tokens_of(alloc, bytes, table)?;
    read_structure(alloc, &tokens)
}

/// The netlist of what is written.
fn made(alloc: Global, file: &StructuralFile, table: &PinTable) -> Result<Netlist, ReadError>
    requires table { IsPinTable table.now }
    requires some { (i : InstanceStatement) → IsThere file.now.instances i → 0 < length i.associations }
    ensures declared { OnOk result (IsChecked table.now file.now) }
    ensures fault { OnOk result (first_fault table.now file.now ≡ None) }
    ensures netlist { IfOk result (λ n. IsNetlistOf table.now file.now n) }
    ensures refused { IfErr result (λ e. IsFaultOf table.now file.now e) }
{
    let components = components(alloc, file.declarations.as_slice())?;
    let known = Known::new(alloc, file, table.as_slice(), &components)?;
    let ports = checked(alloc, &known)?;
    netlist_of(alloc, &known, ports)
}

/// Checks a netlist; a fault stands at line 1.
fn check_netlist(alloc: Global, netlist: &Netlist, table: &PinTable) -> Result<(), ReadError>
    requires { Fits netlist.now table.now }
    ensures passes { OnOk result (Passes table.now netlist.now) }
    ensures refused { IfErr result (λ e. IsUnsound table.now netlist.now e) }
{
    match check(alloc, netlist, table) {
        Ok(()) => Ok(()),
        Err(CheckError::Memory) => Err(ReadError::Memory),
        Err(CheckError::Fault(fault)) => Err(ReadError::Input(InputFault {
            line: 1,
            kind: fault.kind,
            names: fault.names,
        })),
    }
}

/// How many ports are no supplies.
fn signal_count(ports: &[Port]) -> usize
    ensures { result ≡ length (filter (λ p. not (is_supply p.name.text)) ports.now) }
{
    let mut count = 0;
    for port in ports {
        if !is_supply(port.name.text.as_bytes()) {
            count += 1;
        }
    }
    count
}

/// Reads a structural text, and makes the netlist that it describes, of models that a table lists.
///
/// It is refused, in this order:
///
/// - `Limit` of `File` with 268,435,457 reached, where it has more than 268,435,456 bytes; what the lexer refuses; the first token
///   that can't follow those before it (`Syntax`), that declares a name twice, or that exceeds a limit;
/// - `Width` at the first range of a declaration whose bounds don't stand in the order of its word;
/// - `Unsupported` at the first mode inout or type mux or wor, and port of the entity named vdd or vss that isn't `in bit`;
/// - `UnknownCell` at the first component that the table doesn't list, with its name;
/// - `BadMap` at the first component whose ports aren't its model's pins, instance of a component that isn't declared, pin that
///   isn't one or is mapped before, net that isn't there, isn't as wide as the pin, or isn't the port vdd or vss for a pin of that
///   name, or end of a map that leaves a pin out;
/// - `Limit` of `Bits`, where the bits of ports and the pins of instances together reach 2 to the 32, with their number;
/// - the faults of `net_core::check` at line 1;
/// - `Limit` of `Ports` with more than 4096 bits of ports without vdd and vss.
///
/// Where each model of the table has the pins vdd and vss, the netlist meets what every stage asks.
///
/// Memory and time grow with the bytes, the bits of ports and pins, the names of the table's models, and the input pins on which
/// output pins depend; time by the logarithm of their number besides.
pub fn read_vst(alloc: Global, bytes: &[u8], table: &PinTable) -> Result<Netlist, ReadError>
    requires { IsPinTable table.now }
    ensures accepted { IfOk result (λ n. IsVst bytes.now table.now n) }
    ensures refused { IfErr result (λ e. IsVstRefusal bytes.now table.now e) }
    ensures condition { IfOk result (λ n. ListsSupplies table.now → MeetsCondition table.now n) }
{
    let file = written(alloc, bytes, table)?;
    let netlist = made(alloc, &file, table)?;
    check_netlist(alloc, &netlist, table)?;
    let count = signal_count(netlist.ports());
    if count > MOST_PORTS {
        return Err(ReadError::Limit(Limit {
            which: LimitKind::Ports,
            reached: count as u64,
        }));
    }
    Ok(netlist)
}
