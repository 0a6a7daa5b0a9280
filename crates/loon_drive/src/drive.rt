// Buffers, and then drives.
ghost use Rattle.std.specs.Prelude.{◌≡◌, ◌≤◌, ℕ, IfOk, IfErr, OnOk, map};
ghost use Rattle.net_core.specs.Netlist.{IsNetlist, ReservesModels};
ghost use Rattle.delay_sta.specs.Paths.{IsWorst};
ghost use Rattle.delay_sta.specs.Timed.{CanBeTimed};
ghost use Rattle.loon_buffer.specs.Drives.{HasDrives, OnlyExchanges, IsDriven};
ghost use Rattle.loon_fanout.specs.Limited.{HasFanout, HasFewGates, IsOfCells, HasRoomForGates, StaysRight, IsBufferRefusal};
ghost use Rattle.loon_fanout.specs.Laws.{IsTied};
ghost use Rattle.loon_drive.specs.Driven.{most_sinks, IsDrivenFrom};

use crate::laws::exchanged_law;
use cell_checks::Library;
use cell_model::Cell;
use delay_sta::{delays, worst};
use loon_buffer::{DriveTable, choose_drives};
use loon_fanout::{BufferError, limit_fanout, passes_law};
use net_core::Netlist;
use std::alloc::{AllocError, Global};
use vlsi_base::{Listed, Text};

/// A netlist, and how long its longest path takes, in femtoseconds.
#[derive(Drop)]
pub struct Driven {
    pub netlist: Netlist,
    pub delay: u128,
}

fn cell_names(alloc: Global, cells: &[Cell]) -> Result<Vec<Text>, AllocError>
    ensures { IfOk result (λ names. names.items ≡ map (λ c. c.name) cells.now) }
{
    let mut names = Vec::new(alloc);
    for cell in cells {
        names.push(cell.name.copy(alloc)?)?;
    }
    Ok(names)
}

/// Makes room for the names of all cells among the models that instances can be given.
fn reserve(alloc: Global, netlist: &mut Netlist, library: &Library) -> Result<(), AllocError>
    ensures same { OnOk result (netlist.new ≡ record netlist.old { models = netlist.new.models }) }
    ensures drives { OnOk result (HasDrives library.now netlist.new) }
{
    let names = Listed::new(cell_names(alloc, library.cells())?);
    netlist.reserve_models(alloc, &names)
}

/// Cells exchanged for drives of them, so that no exchange of one more makes the longest path shorter.
fn exchanged(alloc: Global, mut netlist: Netlist, library: &Library) -> Result<Driven, AllocError>
    requires timed { CanBeTimed library.now netlist }
    requires drives { HasDrives library.now netlist }
    ensures sound { IfOk result (λ d. IsNetlist d.netlist) }
    ensures exchanged { IfOk result (λ d. OnlyExchanges library.now netlist d.netlist) }
    ensures timed { IfOk result (λ d. CanBeTimed library.now d.netlist) }
    ensures driven { IfOk result (λ d. IsDriven d.netlist library.now) }
    ensures worst { IfOk result (λ d. IsWorst d.netlist library.now d.delay) }
    ensures no_slower { IfOk result (λ d. (before : ℕ) → IsWorst netlist library.now before → d.delay ≤ before) }
{
    // The call says that the netlist is sound.
    let _ = netlist.classes();
    let table = DriveTable::begin(alloc, library)?;
    let mut times = delays(alloc, &netlist, library)?;
    choose_drives(&mut netlist, &table, library, &mut times);
    let delay = worst(&times);
    Ok(Driven { netlist, delay })
}

/// Puts buffers into a netlist until no net has more than `fanout` sinks, where less than 4 counts as 4, and then exchanges cells for
/// drives of them until no exchange of one instance's cell makes the longest path shorter.
///
/// It is refused by `NoBuffer` exactly where a net has too many sinks and the library has neither a buffer nor an inverter. The netlist
/// must be of usable cells, with each instance's vdd and vss at the ports of these names, and pass its checks; 32 times its ports and
/// pins must be fewer than 2^32, so that it has fewer pins than that with all gates. Takes memory for the netlist, for each terminal and
/// arc, and for each pair of cells of which one can stand for the other.
pub fn drive_netlist(
    alloc: Global,
    netlist: &Netlist,
    library: &Library,
    fanout: u32,
) -> Result<Driven, BufferError>
    requires cells { IsOfCells netlist.now library.now }
    requires tied { IsTied netlist.now }
    requires timed { CanBeTimed library.now netlist.now }
    requires room { HasRoomForGates netlist.now }
    ensures driven { IfOk result (λ d. IsDrivenFrom netlist.now library.now fanout d.netlist d.delay) }
    ensures sound { IfOk result (λ d. IsNetlist d.netlist) }
    ensures cells { IfOk result (λ d. IsOfCells d.netlist library.now) }
    ensures fanout { IfOk result (λ d. HasFanout library.now (most_sinks fanout) d.netlist) }
    ensures right { IfOk result (λ d. StaysRight netlist.now library.now d.netlist) }
    ensures timed { IfOk result (λ d. CanBeTimed library.now d.netlist) }
    ensures few { IfOk result (λ d. HasFewGates netlist.now library.now d.netlist) }
    ensures refused { IfErr result (λ e. IsBufferRefusal netlist.now library.now (most_sinks fanout) e) }
{
    exchanged_law();
    passes_law();
    // Both netlists are sound, and the library's cells have passed their checks.
    let _ = netlist.classes();
    let _ = library.cells();
    let mut limited = limit_fanout(alloc, netlist, library, fanout.max(4))?;
    reserve(alloc, &mut limited, library)?;
    let _ = limited.classes();
    Ok(exchanged(alloc, limited, library)?)
}
