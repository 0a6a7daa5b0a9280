// `lvx` as a tool: what it reads, and what it answers.
ghost use Rattle.std.specs.Prelude.{[], ℕ, List, get_or, IfOk, IfErr, false};
ghost use Rattle.cell_lib.specs.Library.{IsLibraryOf};
ghost use Rattle.net_core.specs.Checks.{IsPinTable};
ghost use Rattle.vst_io.specs.Text.{IsVst};
ghost use Rattle.tool_drive.specs.Refusals.{MemoryOr};
ghost use Rattle.tool_drive.specs.Table.{IsJudged};
ghost use Rattle.lvx_run.specs.Lvx.{texts, IsUnread, Tells, Compares};

use crate::words::LvxCommand;
use cell_checks::Library;
use cell_lib::LibraryTool;
use cell_pins::pin_table;
use lvx_compare::{Verdict as Compared, compare};
use net_core::{Netlist, PinTable};
use std::alloc::{AllocError, Global};
use tool_drive::{Answer, Product, Refusal, Status, Verdict, Wanted, bytes_at, refused};
use vlsi_base::{FileBytes, FileName};
use vst_io::read_vst;

// The netlists in the bytes of SOURCE and of the second file, or the status of the first that is refused.
fn read_both(
    alloc: Global,
    command: &LvxCommand,
    source: &[u8],
    other: &[u8],
    table: &PinTable,
) -> Result<(Netlist, Netlist), Status>
    requires { IsPinTable table.now }
    ensures first { IfOk result (λ both. IsVst source.now table.now both.0) }
    ensures second { IfOk result (λ both. IsVst other.now table.now both.1) }
    ensures refused { IfErr result (λ s. MemoryOr s (IsUnread command.now source.now other.now table.now s)) }
{
    let first = match read_vst(alloc, source, table) {
        Ok(netlist) => netlist,
        Err(error) => return Err(refused(alloc, &command.source, error)),
    };
    match read_vst(alloc, other, table) {
        Ok(second) => Ok((first, second)),
        Err(fault) => Err(refused(alloc, &command.other, fault)),
    }
}

// What two netlists come to.
fn told(alloc: Global, command: &LvxCommand, a: &Netlist, b: &Netlist) -> Result<Product, Refusal>
    ensures { IsJudged (Tells command.now a.now b.now) result }
{
    match compare(alloc, a, b)? {
        Compared::Same => Ok(Product {
            name: command.source.copy(alloc)?,
            file: None,
            text: FileBytes::from_bytes(alloc, b"same\n")?,
        }),
        Compared::Different(name) => Err(Refusal::plain(Status::No(Verdict::Different(name)))),
    }
}

// What the texts come to: of SOURCE and of the second file.
fn compared(
    alloc: Global,
    command: &LvxCommand,
    library: &Library,
    first: &[FileBytes],
) -> Result<Product, Refusal>
    ensures { (more : List (List ℕ)) → IsLibraryOf false (get_or first.now 2 []) more library.now
        → IsJudged (Compares command.now (texts first.now more)) result }
{
    let table = pin_table(alloc, library, true)?;
    let source = bytes_at(first, 0);
    let other = bytes_at(first, 1);
    match read_both(alloc, command, source, other, &table) {
        Ok(both) => told(alloc, command, &both.0, &both.1),
        Err(status) => Err(Refusal::plain(status)),
    }
}

/// `lvx`, with what it is asked: it compares the netlist in SOURCE with the one in the second file, by name, and prints `same`.
///
/// All files are read first: SOURCE, the second file, CATAL, and the behaviour and the layout of each cell that this uses. Then it
/// is refused, in this order: by `Library`, or a limit of CATAL or of a cell; by `Source`, or a limit, of SOURCE, then of the second
/// file; by `Different`, with the least name that differs, ports before instances. Memory goes by the files and the netlists.
impl LibraryTool for LvxCommand {
    ghost use Rattle.std.specs.Prelude.{refl, [], ◌∷◌};
    ghost use Rattle.tool_drive.specs.Plan.{large};
    ghost use Rattle.lvx_run.specs.Lvx.{lvx_answers, no_library};

    ghost files = { λ t. large t.source ∷ large t.other ∷ [] };

    ghost folder = { λ t. t.library };

    ghost answers = { lvx_answers };

    fn own_files(&self, alloc: Global) -> Result<Vec<Wanted>, AllocError> {
        let mut wanted = Vec::new(alloc);
        wanted.push(Wanted::large(self.source.copy(alloc)?))?;
        wanted.push(Wanted::large(self.other.copy(alloc)?))?;
        Ok(wanted)
    }

    fn library_folder(&self) -> &FileName {
        &self.library
    }

    fn judge_with(&self, alloc: Global, library: &Library, first: &[FileBytes]) -> Answer {
        compared(alloc, self, library, first)
    }

    ghost refuses = { λ t first more e h. (refl, no_library e h refl) };
}
