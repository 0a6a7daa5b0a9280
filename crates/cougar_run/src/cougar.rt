// `cougar` as a tool: what it reads, and what it answers.
ghost use Rattle.std.specs.Prelude.{ℕ, List, false};
ghost use Rattle.cell_lib.specs.Library.{IsLibraryOf, IsRead};
ghost use Rattle.tool_drive.specs.Refusals.{MemoryOr};
ghost use Rattle.tool_drive.specs.Table.{IsJudged};
ghost use Rattle.cougar_run.specs.Cougar.{Extracts, IsToldOf, IsWriteToldOf};

use crate::product::product;
use crate::words::CougarCommand;
use ap_io::{read_ap, what_is_read_is_a_figure};
use cell_checks::Library;
use cell_lib::{LibraryTool, library_law};
use cougar_extract::{ExtractError, extract, extracted_fits};
use std::alloc::{AllocError, Global};
use tool_drive::{
    Answer, Product, Refusal, Status, Verdict, Wanted, bytes_at, refused, unknown_cell, whole_fault,
};
use vbe_writable::cell_can_be_written;
use vlsi_base::{FaultKind, FileBytes, FileName};
use vst_print::WriteError;

// How a refusal of extraction is told.
fn extract_status(alloc: Global, command: &CougarCommand, error: ExtractError) -> Status
    ensures { MemoryOr result (IsToldOf command.now error result) }
{
    match error {
        ExtractError::Memory => Status::Memory,
        ExtractError::UnknownCell(model) => unknown_cell(alloc, &command.source, model),
        ExtractError::Limit(limit) => Status::Limit(limit),
        ExtractError::Shorted { a, b, .. } => Status::No(Verdict::Shorted { a, b }),
    }
}

// How a refusal of writing is told.
fn write_status(alloc: Global, command: &CougarCommand, error: WriteError) -> Status
    ensures { MemoryOr result (IsWriteToldOf command.now error result) }
{
    match error {
        WriteError::Memory => Status::Memory,
        WriteError::BadMap => whole_fault(
            alloc,
            &command.source,
            FaultKind::BadMap,
            Vec::new(alloc),
        ),
    }
}

// What the layout comes to.
fn extracted(
    alloc: Global,
    command: &CougarCommand,
    library: &Library,
    source: &[u8],
) -> Result<Product, Refusal>
    requires { IsRead library.now }
    ensures { (catal : List ℕ) (cells : List (List ℕ)) → IsLibraryOf false catal cells library.now
        → IsJudged (Extracts command.now source.now catal cells) result }
{
    // What is read has its checks behind it, and fits the table of all cells.
    library_law();
    what_is_read_is_a_figure();
    extracted_fits();
    cell_can_be_written();
    let figure = match read_ap(alloc, source) {
        Ok(figure) => figure,
        Err(error) => return Err(Refusal::plain(refused(alloc, &command.source, error))),
    };
    let netlist = match extract(alloc, &figure, library) {
        Ok(netlist) => netlist,
        Err(error) => return Err(Refusal::plain(extract_status(alloc, command, error))),
    };
    match product(alloc, &command.out, &netlist, library) {
        Ok(product) => Ok(product),
        Err(error) => Err(Refusal::plain(write_status(alloc, command, error))),
    }
}

/// `cougar`, with what it is asked: it takes the netlist out of the layout in SOURCE, writes it to NAME.vst, and prints `cells` and
/// the number of its instances, and `nets` and that of its classes without those of the supplies.
///
/// All files are read first: SOURCE, CATAL, and the behaviour and the layout of each cell that this uses. Then it is refused, in
/// this order: by `Library`, or a limit of CATAL or of a cell, at the first line or cell at fault; by `Source`, or a limit, of
/// SOURCE; by `Source` of `UnknownCell`, at the first instance of a cell that the library hasn't; by `Limit` of `Size`, where there
/// are 2^32 or more shapes; by `Limit` of `Bits`, where there are 2^32 or more ports and pins of instances; by `Shorted`, where two
/// ports are joined; by `Source` of `BadMap`, where names can't be written. Memory goes by the files and the shapes of the layout.
impl LibraryTool for CougarCommand {
    ghost use Rattle.std.specs.Prelude.{refl, [], ◌∷◌};
    ghost use Rattle.tool_drive.specs.Plan.{large};
    ghost use Rattle.cougar_run.specs.Cougar.{cougar_answers, no_library};

    ghost files = { λ t. large t.source ∷ [] };

    ghost folder = { λ t. t.library };

    ghost answers = { cougar_answers };

    fn own_files(&self, alloc: Global) -> Result<Vec<Wanted>, AllocError> {
        let mut wanted = Vec::new(alloc);
        wanted.push(Wanted::large(self.source.copy(alloc)?))?;
        Ok(wanted)
    }

    fn library_folder(&self) -> &FileName {
        &self.library
    }

    fn judge_with(&self, alloc: Global, library: &Library, first: &[FileBytes]) -> Answer {
        extracted(alloc, self, library, bytes_at(first, 0))
    }

    ghost refuses = { λ t first more e h. (refl, no_library e h refl) };
}
