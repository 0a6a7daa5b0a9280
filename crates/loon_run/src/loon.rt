// `loon` as a tool: what it reads, and what it answers.
ghost use Rattle.std.specs.Prelude.{◌≡◌, ℕ, List, IfOk, IfErr, false};
ghost use Rattle.net_core.specs.Netlist.{IsNetlist};
ghost use Rattle.cell_lib.specs.Library.{IsLibraryOf, IsRead};
ghost use Rattle.loon_fanout.specs.Limited.{HasRoomForGates, StaysRight, IsBufferRefusal};
ghost use Rattle.loon_drive.specs.Driven.{most_sinks};
ghost use Rattle.tool_drive.specs.Refusals.{MemoryOr};
ghost use Rattle.tool_drive.specs.Table.{IsJudged};
ghost use Rattle.loon_run.specs.Loon.{IsMade, IsToldOf, Limits};
ghost use Rattle.loon_run.specs.Laws.{HasUsableCells, IsDrivable};

use crate::laws::loon_law;
use crate::product::product;
use crate::words::LoonCommand;
use cell_checks::Library;
use cell_lib::LibraryTool;
use cell_pins::pin_table;
use loon_drive::{Driven, drive_netlist};
use loon_fanout::BufferError;
use net_core::Netlist;
use std::alloc::{AllocError, Global};
use tool_drive::{Answer, Kind, Product, Refusal, Status, Wanted, bytes_at, refused};
use vlsi_base::{FileBytes, FileName};
use vst_io::read_vst;

// What is made of a netlist; one without instances stays as it is.
fn driven(
    alloc: Global,
    netlist: Netlist,
    library: &Library,
    fanout: u32,
) -> Result<Driven, BufferError>
    requires drivable { IsDrivable library.now netlist }
    requires room { HasRoomForGates netlist }
    ensures sound { IfOk result (λ d. IsNetlist d.netlist) }
    ensures made { IfOk result (λ d. IsMade netlist library.now fanout d.netlist d.delay) }
    ensures cells { IfOk result (λ d. HasUsableCells library.now d.netlist) }
    ensures right { IfOk result (λ d. StaysRight netlist library.now d.netlist) }
    ensures refused { IfErr result (λ e. IsBufferRefusal netlist library.now (most_sinks fanout) e) }
{
    if netlist.nodes().is_empty() {
        return Ok(Driven { netlist, delay: 0 });
    }
    drive_netlist(alloc, &netlist, library, fanout)
}

// How a refusal is told.
fn drive_status(error: BufferError) -> Status
    ensures { MemoryOr result (IsToldOf error result) }
{
    match error {
        BufferError::Memory => Status::Memory,
        BufferError::NoBuffer => Status::NoCover(Kind::Inv),
    }
}

// What the netlist comes to.
fn limited(
    alloc: Global,
    command: &LoonCommand,
    library: &Library,
    source: &[u8],
) -> Result<Product, Refusal>
    requires { IsRead library.now }
    ensures { (catal : List ℕ) (cells : List (List ℕ)) → IsLibraryOf false catal cells library.now
        → IsJudged (Limits command.now source.now catal cells) result }
{
    loon_law();
    let table = pin_table(alloc, library, false)?;
    let netlist = match read_vst(alloc, source, &table) {
        Ok(netlist) => netlist,
        Err(error) => return Err(Refusal::plain(refused(alloc, &command.source, error))),
    };
    let driven = match driven(alloc, netlist, library, command.fanout) {
        Ok(driven) => driven,
        Err(error) => return Err(Refusal::plain(drive_status(error))),
    };
    let written = product(alloc, &command.out, &driven, &table)?;
    Ok(written)
}

/// `loon`, with what it is asked: it puts buffers into the netlist in SOURCE until no net has more sinks than asked for, exchanges
/// cells for drives of them until no exchange of one instance's cell makes the longest path shorter, writes the netlist to NAME.vst,
/// and prints `cells` and the number of its instances, and `delay` and how many femtoseconds the longest path takes.
///
/// All files are read first: SOURCE, CATAL, and the behaviour and the layout of each cell that this uses. Then it is refused, in this
/// order: by `Library`, or a limit of CATAL or of a cell, at the first line or cell at fault; by `Source`, or a limit, of SOURCE, in
/// which cells that aren't usable are unknown; by `NoCover` of an inverter, where a net has too many sinks and the library has neither a
/// buffer nor an inverter. A netlist that is read has few enough ports and pins for all buffers. Memory goes by the files, the
/// netlist, its arcs, and each pair of cells of which one can stand for the other.
impl LibraryTool for LoonCommand {
    ghost use Rattle.std.specs.Prelude.{refl, [], ◌∷◌};
    ghost use Rattle.tool_drive.specs.Plan.{large};
    ghost use Rattle.loon_run.specs.Loon.{loon_answers, no_library};

    ghost files = { λ t. large t.source ∷ [] };

    ghost folder = { λ t. t.library };

    ghost answers = { loon_answers };

    fn own_files(&self, alloc: Global) -> Result<Vec<Wanted>, AllocError> {
        let mut wanted = Vec::new(alloc);
        wanted.push(Wanted::large(self.source.copy(alloc)?))?;
        Ok(wanted)
    }

    fn library_folder(&self) -> &FileName {
        &self.library
    }

    fn judge_with(&self, alloc: Global, library: &Library, first: &[FileBytes]) -> Answer {
        limited(alloc, self, library, bytes_at(first, 0))
    }

    ghost refuses = { λ t first more e h. (refl, no_library e h refl) };
}
