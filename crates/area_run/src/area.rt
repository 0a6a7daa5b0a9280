// `area` as a tool: what it reads, and what it answers.
ghost use Rattle.std.specs.Prelude.{ℕ, List, false};
ghost use Rattle.cell_lib.specs.Library.{IsLibraryOf};
ghost use Rattle.tool_drive.specs.Table.{IsJudged};
ghost use Rattle.area_run.specs.Area.{Measures};

use crate::measure::{measured, report};
use crate::words::AreaCommand;
use cell_checks::Library;
use cell_lib::LibraryTool;
use std::alloc::{AllocError, Global};
use tool_drive::{Answer, Product, Refusal, Wanted, bytes_at, refused};
use vbe_io::read_vbe;
use vlsi_base::{FileBytes, FileName};

// What the source comes to.
fn told(
    alloc: Global,
    command: &AreaCommand,
    library: &Library,
    source: &[u8],
) -> Result<Product, Refusal>
    ensures { (catal : List ℕ) (cells : List (List ℕ)) → IsLibraryOf false catal cells library.now
        → IsJudged (Measures command.now source.now catal cells) result }
{
    let machine = match read_vbe(alloc, source) {
        Ok(machine) => machine,
        Err(error) => return Err(Refusal::plain(refused(alloc, &command.source, error))),
    };
    let measure = match measured(alloc, &machine, library) {
        Ok(measure) => measure,
        Err(status) => return Err(Refusal::plain(status)),
    };
    let name = command.source.copy(alloc)?;
    let text = report(alloc, &measure)?;
    Ok(Product {
        name,
        file: None,
        text,
    })
}

/// `area`, with what it is asked: it prints `trees` and how many trees the graph of SOURCE's machine has, and `area` and the least area in
/// columns of covers of them all by usable cells of the library. It writes no file.
///
/// All files are read first: SOURCE, CATAL, and the behaviour and the layout of each cell that this uses. Then it is refused, in this
/// order: by `Library`, or a limit of CATAL or a cell, at the first line or cell at fault; by `Source`, or a limit of the text; by
/// `Limit` of `Size`, where the machine weighs more than `MOST_SIZE`; by `NoCover`, where no usable cell is an inverter, or else none a nand of
/// two inputs. Memory goes by the files, the machine, and enough cuts of its graph within trees.
impl LibraryTool for AreaCommand {
    ghost use Rattle.std.specs.Prelude.{refl, [], ◌∷◌};
    ghost use Rattle.tool_drive.specs.Plan.{limited};
    ghost use Rattle.area_run.specs.Area.{area_answers, no_library};

    ghost files = { λ t. limited t.source ∷ [] };

    ghost folder = { λ t. t.library };

    ghost answers = { area_answers };

    fn own_files(&self, alloc: Global) -> Result<Vec<Wanted>, AllocError> {
        let mut wanted = Vec::new(alloc);
        wanted.push(Wanted::limited(self.source.copy(alloc)?))?;
        Ok(wanted)
    }

    fn library_folder(&self) -> &FileName {
        &self.library
    }

    fn judge_with(&self, alloc: Global, library: &Library, first: &[FileBytes]) -> Answer {
        told(alloc, self, library, bytes_at(first, 0))
    }

    ghost refuses = { λ t first more e h. (refl, no_library e h refl) };
}
