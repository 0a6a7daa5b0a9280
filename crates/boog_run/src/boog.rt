// `boog` as a tool: what it reads, and what it answers.
ghost use Rattle.std.specs.Prelude.{ℕ, List, false};
ghost use Rattle.cell_lib.specs.Library.{IsLibraryOf, IsRead};
ghost use Rattle.tool_drive.specs.Table.{IsJudged};
ghost use Rattle.boog_run.specs.Boog.{Maps};

use crate::netlist::{netlist_of, product};
use crate::words::BoogCommand;
use cell_checks::Library;
use cell_lib::LibraryTool;
use std::alloc::{AllocError, Global};
use tool_drive::{Answer, Product, Refusal, Wanted, bytes_at, refused};
use vbe_io::read_vbe;
use vbe_writable::{catal_is_named, cell_can_be_written, machine_can_be_written, machine_is_named};
use vlsi_base::{FileBytes, FileName};

// What the source comes to.
fn mapped(
    alloc: Global,
    command: &BoogCommand,
    library: &Library,
    source: &[u8],
) -> Result<Product, Refusal>
    requires { IsRead library.now }
    ensures { (catal : List ℕ) (cells : List (List ℕ)) → IsLibraryOf false catal cells library.now
        → IsJudged (Maps command.now source.now catal cells) result }
{
    machine_is_named();
    catal_is_named();
    machine_can_be_written();
    cell_can_be_written();
    let machine = match read_vbe(alloc, source) {
        Ok(machine) => machine,
        Err(error) => return Err(Refusal::plain(refused(alloc, &command.source, error))),
    };
    let netlist = match netlist_of(alloc, &machine, library) {
        Ok(netlist) => netlist,
        Err(status) => return Err(Refusal::plain(status)),
    };
    let written = product(alloc, &command.out, &netlist, library)?;
    Ok(written)
}

/// `boog`, with what it is asked: it maps the machine of SOURCE to usable cells of the library, writes the netlist to NAME.vst, and
/// prints `cells` and the number of its instances.
///
/// All files are read first: SOURCE, CATAL, and the behaviour and the layout of each cell that this uses. Then it is refused, in this
/// order: by `Library`, or a limit of CATAL or a cell, at the first line or cell at fault; by `Source`, or a limit of the text; by
/// `Limit` of `Size`, where the machine weighs more than `MOST_SIZE`; by `NoCover`, where the library has no usable cell of a kind.
/// Memory goes by the files, the machine and its netlist.
impl LibraryTool for BoogCommand {
    ghost use Rattle.std.specs.Prelude.{refl, [], ◌∷◌};
    ghost use Rattle.tool_drive.specs.Plan.{limited};
    ghost use Rattle.boog_run.specs.Boog.{boog_answers, no_library};

    ghost files = { λ t. limited t.source ∷ [] };

    ghost folder = { λ t. t.library };

    ghost answers = { boog_answers };

    fn own_files(&self, alloc: Global) -> Result<Vec<Wanted>, AllocError> {
        let mut wanted = Vec::new(alloc);
        wanted.push(Wanted::limited(self.source.copy(alloc)?))?;
        Ok(wanted)
    }

    fn library_folder(&self) -> &FileName {
        &self.library
    }

    fn judge_with(&self, alloc: Global, library: &Library, first: &[FileBytes]) -> Answer {
        mapped(alloc, self, library, bytes_at(first, 0))
    }

    ghost refuses = { λ t first more e h. (refl, no_library e h refl) };
}
