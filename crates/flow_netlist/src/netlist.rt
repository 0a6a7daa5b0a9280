// The netlist of a machine, with buffers and drives.
ghost use Rattle.std.specs.Prelude.{◌≤◌, IfOk, length};
ghost use Rattle.machine_core.specs.Size.{machine_size as size_of};
ghost use Rattle.source_checks.specs.Checks.{most_ports};
ghost use Rattle.boog_map.specs.Netlist.{Covers};
ghost use Rattle.tool_drive.specs.declared.size.TheConstants.{MOST_SIZE};
ghost use Rattle.flow_netlist.specs.Netlist.{IsDrivenNetlist};

use boog_run::covered_netlist;
use cell_checks::Library;
use cell_pins::libraries_have_tables;
use loon_drive::{Driven, drive_netlist};
use loon_fanout::BufferError;
use machine_core::Machine;
use std::alloc::{AllocError, Global};

/// A netlist of the library's cells for a machine that is small enough and that they cover, with buffers where a net had more than
/// `fanout` sinks, or 4 where that is less, and with drives that no single exchange makes faster. A library that covers a machine has
/// an inverter, so nothing stands in the way of buffers. Takes memory for graph and netlist, and what `drive_netlist` takes.
pub fn driven_netlist_of(
    alloc: Global,
    machine: &Machine,
    library: &Library,
    fanout: u32,
) -> Result<Driven, AllocError>
    requires ports { length machine.now.ports ≤ most_ports }
    requires small { size_of machine.now ≤ MOST_SIZE }
    requires covered { Covers library.now machine.now }
    ensures { IfOk result (λ d. IsDrivenNetlist library.now machine.now fanout d.netlist d.delay) }
{
    // Machine and library are checked; and there is a table of pins, by which it is said what stages ask of a netlist.
    libraries_have_tables();
    let _ = machine.name();
    let _ = library.cells();
    let netlist = covered_netlist(alloc, machine, library)?;
    match drive_netlist(alloc, &netlist, library, fanout) {
        Ok(driven) => Ok(driven),
        Err(BufferError::Memory) => Err(AllocError),
        Err(BufferError::NoBuffer) => unreachable!(),
    }
}
