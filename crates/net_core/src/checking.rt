// Whether a netlist is sound.
ghost use Rattle.std.specs.Prelude.{◌≡◌, ◌<◌, IfOk, IfErr, OnOk};
ghost use Rattle.net_core.specs.Checks.{Fits, Passes, HasSoundClasses, IsClassRefusal, IsRefusal, kind_of, HasNamesOfLeast};

use crate::cycle::cycle;
use crate::error::{CheckError, NetFault};
use crate::netlist::Netlist;
use crate::pins::PinTable;
use crate::roles::{clock_count, roles};
use crate::tally::{ClassFault, first_fault, tallies};
use std::alloc::{AllocError, Global};
use vlsi_base::{FaultKind, Names};

/// The kind of a fault of a class.
fn kind_of(fault: ClassFault) -> FaultKind
    ensures { result ≡ kind_of fault }
{
    match fault {
        ClassFault::Unconnected => FaultKind::Unconnected,
        ClassFault::NoDriver => FaultKind::NoDriver,
        ClassFault::TwoDrivers => FaultKind::TwoDrivers,
        ClassFault::ClockUse => FaultKind::ClockUse,
    }
}

/// The fault of a class, named by its least terminal.
fn fault_of(
    alloc: Global,
    netlist: &Netlist,
    fault: ClassFault,
    class: u32,
) -> Result<NetFault, AllocError>
    requires { class < netlist.now.count }
    ensures kind { IfOk result (λ f. f.kind ≡ kind_of fault) }
    ensures names { IfOk result (λ f. HasNamesOfLeast netlist.now class f.names) }
{
    let names = netlist.least_names(alloc, class)?;
    Ok(NetFault {
        kind: kind_of(fault),
        names,
    })
}

/// Checks the classes of a netlist, by a table that lists its models. It is refused by `Fault` exactly where a class has one of
/// these faults: the first of them that one has, at the first class that has it, named by the least terminal of that class, a pin
/// by its instance and its own name.
///
/// - `Unconnected`: an input pin is alone in its class.
/// - `NoDriver`: a class that isn't unconnected has an input pin or an output port, and neither an input port nor an output pin.
/// - `TwoDrivers`: a class has two of input ports and output pins.
/// - `ClockUse`: a class with a clock pin has no input port, or lacks another clock pin, or has an output port or an input pin that
///   isn't a clock pin.
///
/// Takes memory for each terminal and each class, and time for each terminal.
pub fn check_classes(alloc: Global, netlist: &Netlist, table: &PinTable) -> Result<(), CheckError>
    requires { Fits netlist.now table.now }
    ensures sound { OnOk result (HasSoundClasses table.now netlist.now) }
    ensures refused { IfErr result (λ e. IsClassRefusal table.now netlist.now e) }
{
    let roles = roles(alloc, netlist, table)?;
    let tallies = tallies(alloc, netlist.count(), &roles, netlist.classes())?;
    match first_fault(&tallies, clock_count(&roles)) {
        None => Ok(()),
        Some((fault, class)) => {
            let fault = fault_of(alloc, netlist, fault, class as u32)?;
            Err(CheckError::Fault(fault))
        }
    }
}

/// Checks a netlist, by a table that lists its models. It is refused by `Fault` exactly where one of the faults of `check_classes`
/// holds, as that answers it, or where its classes are sound and there is a ring:
///
/// - `Cycle`: output pins of instances stand in a ring, and each depends at once on an input pin in the class of the next. It names
///   the instances of a ring in turn, from the least name on; an instance of which two output pins stand in the ring is named twice.
///
/// Takes memory and time for each terminal, each class, and each input pin on which an output pin depends.
pub fn check(alloc: Global, netlist: &Netlist, table: &PinTable) -> Result<(), CheckError>
    requires { Fits netlist.now table.now }
    ensures passes { OnOk result (Passes table.now netlist.now) }
    ensures refused { IfErr result (λ e. IsRefusal table.now netlist.now e) }
{
    check_classes(alloc, netlist, table)?;
    match cycle(alloc, netlist, table)? {
        None => Ok(()),
        Some(names) => Err(CheckError::Fault(NetFault {
            kind: FaultKind::Cycle,
            names: Names::new(names),
        })),
    }
}
