// `ocp` as a tool: what it reads, and what it answers.
ghost use Rattle.std.specs.Prelude.{ℕ, List, false};
ghost use Rattle.cell_lib.specs.Library.{IsLibraryOf, IsRead};
ghost use Rattle.tool_drive.specs.Table.{IsJudged};
ghost use Rattle.ocp_run.specs.Ocp.{Places};

use crate::laws::source_law;
use crate::product::product;
use crate::source::read_source;
use crate::words::OcpCommand;
use cell_checks::Library;
use cell_lib::LibraryTool;
use cell_pins::pin_table;
use ocp_anneal::{Moves, place};
use std::alloc::{AllocError, Global};
use tool_drive::{Answer, Product, Refusal, Wanted, bytes_at};
use vlsi_base::{FileBytes, FileName};

// What the netlist comes to.
fn placed(
    alloc: Global,
    command: &OcpCommand,
    library: &Library,
    source: &[u8],
) -> Result<Product, Refusal>
    requires { IsRead library.now }
    ensures { (catal : List ℕ) (cells : List (List ℕ)) → IsLibraryOf false catal cells library.now
        → IsJudged (Places command.now source.now catal cells) result }
{
    source_law();
    let table = pin_table(alloc, library, false)?;
    let netlist = match read_source(alloc, &command.source, source, &table) {
        Ok(netlist) => netlist,
        Err(status) => return Err(Refusal::plain(status)),
    };
    let moves = Moves {
        many: command.moves,
        seed: command.seed,
    };
    let placement = place(alloc, &netlist, library, command.rows, moves)?;
    let product = product(alloc, &command.out, &netlist, library, &placement)?;
    Ok(product)
}

/// `ocp`, with what it is asked: it places the netlist in SOURCE in rows, writes the placement to NAME.ap, without routes, and prints
/// `length` and the sum of half the perimeters of its nets.
///
/// All files are read first: SOURCE, CATAL, and the behaviour and the layout of each cell that this uses. Then it is refused, in this
/// order: by `Library`, or a limit of CATAL or of a cell, at the first line or cell at fault; by `Source`, or a limit, of SOURCE, in
/// which cells that aren't usable are unknown; by `Source` of `Unknown`, where the netlist has no port vdd, or none vss, which it lacks
/// only without instances. Memory goes by the files, the netlist and the shapes of the cells.
impl LibraryTool for OcpCommand {
    ghost use Rattle.std.specs.Prelude.{refl, [], ◌∷◌};
    ghost use Rattle.tool_drive.specs.Plan.{large};
    ghost use Rattle.ocp_run.specs.Ocp.{ocp_answers, no_library};

    ghost files = { λ t. large t.source ∷ [] };

    ghost folder = { λ t. t.library };

    ghost answers = { ocp_answers };

    fn own_files(&self, alloc: Global) -> Result<Vec<Wanted>, AllocError> {
        let mut wanted = Vec::new(alloc);
        wanted.push(Wanted::large(self.source.copy(alloc)?))?;
        Ok(wanted)
    }

    fn library_folder(&self) -> &FileName {
        &self.library
    }

    fn judge_with(&self, alloc: Global, library: &Library, first: &[FileBytes]) -> Answer {
        placed(alloc, self, library, bytes_at(first, 0))
    }

    ghost refuses = { λ t first more e h. (refl, no_library e h refl) };
}
