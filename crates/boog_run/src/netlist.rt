// The netlist of a machine, and what is written and printed of it.
ghost use Rattle.std.specs.Prelude.{◌≡◌, ◌≤◌, Some, IfOk, OnOk, IfErr, length};
ghost use Rattle.machine_core.specs.Size.{machine_size as size_of};
ghost use Rattle.source_checks.specs.Checks.{most_ports};
ghost use Rattle.tool_drive.specs.Refusals.{MemoryOr};
ghost use Rattle.boog_map.specs.Netlist.{Covers};
ghost use Rattle.boog_run.specs.Boog.{IsNetlistFor, IsNoNetlist, IsWritable, IsWrittenAs, report as report_of};
ghost use Rattle.tool_drive.specs.declared.size.TheConstants.{MOST_SIZE};

use boog_map::{MapError, map, map_covered};
use cell_checks::Library;
use cell_pins::pin_table;
use machine_core::Machine;
use net_core::Netlist;
use net_right::right_meets_condition;
use std::alloc::{AllocError, Global};
use subject_graph::Graph;
use tool_drive::{Product, Status, check_size, count_text, file_name};
use vlsi_base::{FileBytes, FileName};
use vst_print::{WriteError, write_vst};

/// A netlist of the library's cells for the machine, or the status that tells why there is none: `Limit` of `Size`, `NoCover`, or out
/// of memory.
pub fn netlist_of(alloc: Global, machine: &Machine, library: &Library) -> Result<Netlist, Status>
    requires { length machine.now.ports ≤ most_ports }
    ensures right { IfOk result (λ n. IsNetlistFor library.now machine.now n) }
    ensures small { OnOk result (size_of machine.now ≤ MOST_SIZE) }
    ensures refused { IfErr result (λ s. MemoryOr s (IsNoNetlist library.now machine.now s)) }
{
    check_size(machine)?;
    // Machine and library are checked, as the law asks.
    right_meets_condition();
    let _ = machine.name();
    let _ = library.cells();
    let Ok(graph) = Graph::of_machine(alloc, machine) else {
        return Err(Status::Memory);
    };
    match map(alloc, machine, &graph, library) {
        Ok(netlist) => Ok(netlist),
        Err(MapError::Memory) => Err(Status::Memory),
        Err(MapError::NoCover(kind)) => Err(Status::NoCover(kind)),
    }
}

/// A netlist of the library's cells for a machine that is small enough and that they cover. Takes memory for graph and netlist.
pub fn covered_netlist(
    alloc: Global,
    machine: &Machine,
    library: &Library,
) -> Result<Netlist, AllocError>
    requires ports { length machine.now.ports ≤ most_ports }
    requires small { size_of machine.now ≤ MOST_SIZE }
    requires covered { Covers library.now machine.now }
    ensures { IfOk result (λ n. IsNetlistFor library.now machine.now n) }
{
    // Machine and library are checked, as the law asks.
    right_meets_condition();
    let _ = machine.name();
    let _ = library.cells();
    let graph = Graph::of_machine(alloc, machine)?;
    let netlist = map_covered(alloc, machine, &graph, library)?;
    Ok(netlist)
}

// How many instances there are.
fn report(alloc: Global, netlist: &Netlist) -> Result<FileBytes, AllocError>
    ensures { IfOk result (λ text. text ≡ report_of netlist.now) }
{
    count_text(alloc, b"cells", netlist.nodes().len() as u128)
}

/// The netlist's file, NAME.vst, and what is printed.
pub(crate) fn product(
    alloc: Global,
    out: &FileName,
    netlist: &Netlist,
    library: &Library,
) -> Result<Product, AllocError>
    requires { IsWritable library.now netlist.now }
    ensures { IfOk result (λ p. IsWrittenAs out.now library.now netlist.now p) }
{
    let table = pin_table(alloc, library, false)?;
    let file = match write_vst(alloc, netlist, &table) {
        Ok(file) => file,
        Err(WriteError::Memory) => return Err(AllocError),
        Err(WriteError::BadMap) => unreachable!(),
    };
    let name = file_name(alloc, out, b".vst")?;
    Ok(Product {
        name,
        file: Some(file),
        text: report(alloc, netlist)?,
    })
}
