// `scapin` as a tool: what it reads, and what it answers.
ghost use Rattle.std.specs.Prelude.{ℕ, List, false};
ghost use Rattle.cell_lib.specs.Library.{IsLibraryOf, IsRead};
ghost use Rattle.tool_drive.specs.Table.{IsJudged};
ghost use Rattle.scapin_run.specs.Scapin.{Makes, texts};

use crate::laws::scapin_law;
use crate::product::product;
use crate::refusals::scan_status;
use crate::words::ScapinCommand;
use cell_checks::Library;
use cell_lib::LibraryTool;
use cell_pins::pin_table;
use path_io::read_path;
use scapin::insert_scan;
use std::alloc::{AllocError, Global};
use tool_drive::{Answer, Product, Refusal, Wanted, bytes_at, refused};
use vlsi_base::{FileBytes, FileName};
use vst_io::read_vst;

// What the netlist comes to, along the path.
fn made(
    alloc: Global,
    command: &ScapinCommand,
    library: &Library,
    source: &[u8],
    path: &[u8],
) -> Result<Product, Refusal>
    requires { IsRead library.now }
    ensures { (catal : List ℕ) (cells : List (List ℕ)) → IsLibraryOf false catal cells library.now
        → IsJudged (Makes command.now (texts source.now path.now catal cells)) result }
{
    scapin_law();
    let table = pin_table(alloc, library, false)?;
    let netlist = match read_vst(alloc, source, &table) {
        Ok(netlist) => netlist,
        Err(error) => return Err(Refusal::plain(refused(alloc, &command.source, error))),
    };
    let path = match read_path(alloc, path) {
        Ok(path) => path,
        Err(error) => return Err(Refusal::plain(refused(alloc, &command.path, error))),
    };
    let scanned = match insert_scan(alloc, &netlist, library, &path.names) {
        Ok(scanned) => scanned,
        Err(error) => return Err(Refusal::plain(scan_status(alloc, command, &path, error))),
    };
    let written = product(alloc, &command.out, &scanned, &table)?;
    Ok(written)
}

/// `scapin`, with what it is asked: it puts a scan path through the registers of the netlist in SOURCE, in the order of PATH, writes the
/// netlist to NAME.vst, and prints `cells` and the number of its instances.
///
/// All files are read first: SOURCE, PATH, CATAL, and the behaviour and the layout of each cell that this uses. Then it is refused, in
/// this order: by `Library`, or a limit of CATAL or of a cell, at the first line or cell at fault; by `Source`, or a limit, of SOURCE, in
/// which cells that aren't usable are unknown; by `Source`, or a limit, of PATH; by `Source` of `Twice` on line 1 of SOURCE, with the
/// first of the names scin, test, scout, s0, s1 and so on that is to be added, but is taken; by `NoCover` of an inverter or of a nand; by
/// `Source` of `Unknown` on its line of PATH, with the first name that is no register's; by `Source` of `Twice` on its line of PATH, with
/// the first name that stood before; by `Source` of `NotAssigned` on the last line of PATH, with the first register that it lacks. Memory
/// goes by the files and the netlist.
impl LibraryTool for ScapinCommand {
    ghost use Rattle.std.specs.Prelude.{refl, [], ◌∷◌};
    ghost use Rattle.tool_drive.specs.Plan.{limited, large};
    ghost use Rattle.scapin_run.specs.Scapin.{scapin_answers, no_library};

    ghost files = { λ t. large t.source ∷ limited t.path ∷ [] };

    ghost folder = { λ t. t.library };

    ghost answers = { scapin_answers };

    fn own_files(&self, alloc: Global) -> Result<Vec<Wanted>, AllocError> {
        let mut wanted = Vec::new(alloc);
        wanted.push(Wanted::large(self.source.copy(alloc)?))?;
        wanted.push(Wanted::limited(self.path.copy(alloc)?))?;
        Ok(wanted)
    }

    fn library_folder(&self) -> &FileName {
        &self.library
    }

    fn judge_with(&self, alloc: Global, library: &Library, first: &[FileBytes]) -> Answer {
        made(alloc, self, library, bytes_at(first, 0), bytes_at(first, 1))
    }

    ghost refuses = { λ t first more e h. (refl, no_library e h refl) };
}
