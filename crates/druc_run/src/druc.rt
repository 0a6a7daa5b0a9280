// `druc` as a tool: what it reads, and what it answers.
ghost use Rattle.std.specs.Prelude.{ℕ, List, false};
ghost use Rattle.cell_lib.specs.Library.{IsLibraryOf};
ghost use Rattle.tool_drive.specs.Refusals.{MemoryOr};
ghost use Rattle.tool_drive.specs.Table.{IsJudged};
ghost use Rattle.druc_run.specs.Druc.{IsToldOf, IsAnswerOf, Checks};

use crate::report::report;
use crate::words::DrucCommand;
use ap_io::{read_ap, what_is_read_is_a_figure};
use cell_checks::Library;
use cell_lib::LibraryTool;
use druc_rules::{Breach, DrucError, Rules, broken, standard_rules_law};
use std::alloc::{AllocError, Global};
use tool_drive::{
    Answer, Product, Refusal, Status, Verdict, Wanted, bytes_at, refused, unknown_cell,
};
use vlsi_base::{FileBytes, FileName};

// How a refusal is told.
fn druc_status(alloc: Global, command: &DrucCommand, error: DrucError) -> Status
    ensures { MemoryOr result (IsToldOf command.now error result) }
{
    match error {
        DrucError::Memory => Status::Memory,
        DrucError::UnknownCell(model) => unknown_cell(alloc, &command.source, model),
        DrucError::Limit(limit) => Status::Limit(limit),
    }
}

// What is answered of the breaches that were found.
fn answer(alloc: Global, command: &DrucCommand, found: &[Breach]) -> Result<Product, Refusal>
    ensures { IsJudged (IsAnswerOf command.now found.now) result }
{
    let mut text = report(alloc, found)?;
    if !found.is_empty() {
        return Err(Refusal::plain(Status::No(Verdict::Broken(text))));
    }
    text.append(b"\n")?;
    let name = command.source.copy(alloc)?;
    Ok(Product {
        name,
        file: None,
        text,
    })
}

// What the layout comes to.
fn checked(
    alloc: Global,
    command: &DrucCommand,
    library: &Library,
    source: &[u8],
) -> Result<Product, Refusal>
    ensures { (catal : List ℕ) (cells : List (List ℕ)) → IsLibraryOf false catal cells library.now
        → IsJudged (Checks command.now source.now catal cells) result }
{
    // What is read has its checks behind it.
    what_is_read_is_a_figure();
    standard_rules_law();
    let figure = match read_ap(alloc, source) {
        Ok(figure) => figure,
        Err(error) => return Err(Refusal::plain(refused(alloc, &command.source, error))),
    };
    let found = match broken(alloc, &figure, library, &Rules::standard()) {
        Ok(found) => found,
        Err(error) => return Err(Refusal::plain(druc_status(alloc, command, error))),
    };
    answer(alloc, command, found.as_slice())
}

/// `druc`, with what it is asked: it prints a line for each breach of the rules in the layout in SOURCE, and then `breaches` and how
/// many there are.
///
/// All files are read first: SOURCE, CATAL, and the behaviour and the layout of each cell that this uses. Then it is refused, in
/// this order: by `Library`, or a limit of CATAL or of a cell, at the first line or cell at fault; by `Source`, or a limit, of
/// SOURCE; by `Source` of `UnknownCell`, at the first instance of a cell that the library hasn't; by `Limit` of `Size`, where there
/// are 2^32 or more shapes; by `Broken`, where there is a breach. Memory goes by the files and the shapes of the layout.
impl LibraryTool for DrucCommand {
    ghost use Rattle.std.specs.Prelude.{refl, [], ◌∷◌};
    ghost use Rattle.tool_drive.specs.Plan.{large};
    ghost use Rattle.druc_run.specs.Druc.{druc_answers, no_library};

    ghost files = { λ t. large t.source ∷ [] };

    ghost folder = { λ t. t.library };

    ghost answers = { druc_answers };

    fn own_files(&self, alloc: Global) -> Result<Vec<Wanted>, AllocError> {
        let mut wanted = Vec::new(alloc);
        wanted.push(Wanted::large(self.source.copy(alloc)?))?;
        Ok(wanted)
    }

    fn library_folder(&self) -> &FileName {
        &self.library
    }

    fn judge_with(&self, alloc: Global, library: &Library, first: &[FileBytes]) -> Answer {
        checked(alloc, self, library, bytes_at(first, 0))
    }

    ghost refuses = { λ t first more e h. (refl, no_library e h refl) };
}
