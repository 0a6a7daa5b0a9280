// The netlist that is to be placed, as it is read.
ghost use Rattle.std.specs.Prelude.{◌≡◌, ◌∷◌, [], true, false, IfOk, IfErr, OnOk};
ghost use Rattle.vlsi_base.specs.Names.{scalar, vdd, vss};
ghost use Rattle.net_core.specs.Checks.{IsPinTable};
ghost use Rattle.net_right.specs.Condition.{MeetsCondition};
ghost use Rattle.vst_io.specs.Text.{IsVst, ListsSupplies};
ghost use Rattle.tool_drive.specs.Refusals.{MemoryOr, whole_fault};
ghost use Rattle.ocp_run.specs.Source.{HasPort, is_named as is_port_named, is_among as is_port_among, IsSource, IsNoSource};

use net_core::{Netlist, PinTable};
use std::alloc::Global;
use tool_drive::{Status, named_fault, refused};
use vlsi_base::{FaultKind, FileName, Name, Port, Text};
use vst_io::read_vst;

fn is_named(port: &Port, text: &[u8]) -> bool
    ensures { result ≡ is_port_named text.now port.now }
{
    port.name.text.as_bytes() == text && port.name.bit.is_none()
}

fn has_port(ports: &[Port], text: &[u8]) -> bool
    ensures { result ≡ is_port_among text.now ports.now }
{
    ports.iter().any(|port| is_named(port, text))
}

// The status of a netlist that lacks a port.
fn lacks(alloc: Global, file: &FileName, text: &[u8]) -> Status
    ensures { MemoryOr result (result ≡ whole_fault file.now FaultKind.Unknown (scalar text.now ∷ [])) }
{
    match Text::from_bytes(alloc, text) {
        Ok(text) => named_fault(alloc, file, FaultKind::Unknown, Name::scalar(text)),
        Err(_) => Status::Memory,
    }
}

/// The netlist in the bytes of a file, of the cells that a table lists, with the ports vdd and vss. Each netlist with an instance has them.
///
/// It is refused, in this order, as `read_vst` refuses it, and by `Unknown` at line 1, with vdd or else vss, where it has no such port.
pub fn read_source(
    alloc: Global,
    file: &FileName,
    source: &[u8],
    table: &PinTable,
) -> Result<Netlist, Status>
    requires { IsPinTable table.now }
    ensures read { IfOk result (λ n. IsSource source.now table.now n) }
    ensures condition { IfOk result (λ n. ListsSupplies table.now → MeetsCondition table.now n) }
    ensures refused { IfErr result (λ s. MemoryOr s (IsNoSource file.now source.now table.now s)) }
{
    let netlist = match read_vst(alloc, source, table) {
        Ok(netlist) => netlist,
        Err(error) => return Err(refused(alloc, file, error)),
    };
    if !has_port(netlist.ports(), b"vdd") {
        return Err(lacks(alloc, file, b"vdd"));
    }
    if !has_port(netlist.ports(), b"vss") {
        return Err(lacks(alloc, file, b"vss"));
    }
    Ok(netlist)
}
