// `s2r` as a tool: what it reads, and what it answers.
ghost use Rattle.std.specs.Prelude.{◌≡◌, ℕ, List, IfOk, false};
ghost use Rattle.ap_io.specs.ApText.{IsApText};
ghost use Rattle.cougar_extract.specs.Extracted.{IsReadyFigure};
ghost use Rattle.real_table.specs.Process.{is_process as is_process_text};
ghost use Rattle.cell_lib.specs.Library.{IsLibraryOf};
ghost use Rattle.tool_drive.specs.Refusals.{MemoryOr};
ghost use Rattle.tool_drive.specs.Table.{IsJudged};
ghost use Rattle.s2r_cif.specs.Real.{IsRealLayout};
ghost use Rattle.s2r_run.specs.S2r.{IsProductOf, IsToldOf, Makes, texts};

use crate::near::metal_text;
use crate::process::made_process;
use crate::reader::read_table;
use crate::words::S2rCommand;
use ap_io::{Figure, read_ap, what_is_read_is_a_figure};
use cell_checks::Library;
use cell_lib::LibraryTool;
use real_table::is_process;
use s2r_cif::{RealError, RealLayout, to_real, write_cif};
use std::alloc::{AllocError, Global};
use tool_drive::{
    Answer, Product, Refusal, Status, Verdict, Wanted, bytes_at, count_text, file_name,
    named_fault, refused, unknown_cell,
};
use vlsi_base::{FaultKind, FileBytes, FileName, Name};

// How a refusal of the real layout is told.
fn real_status(alloc: Global, command: &S2rCommand, error: RealError) -> Status
    ensures { MemoryOr result (IsToldOf command.now error result) }
{
    match error {
        RealError::Memory => Status::Memory,
        RealError::UnknownCell(model) => unknown_cell(alloc, &command.source, model),
        RealError::NotMappable(model) => named_fault(
            alloc,
            &command.source,
            FaultKind::Unsupported,
            Name::scalar(model),
        ),
        RealError::Limit(limit) => Status::Limit(limit),
        RealError::Near { metal, a, b } => match metal_text(alloc, metal, &a, &b) {
            Ok(text) => Status::No(Verdict::Near(text)),
            Err(_) => Status::Memory,
        },
    }
}

// What is written and printed of a real layout.
fn product(alloc: Global, command: &S2rCommand, layout: &RealLayout) -> Result<Product, AllocError>
    requires { IsRealLayout layout.now }
    ensures { IfOk result (λ p. IsProductOf command.now layout.now p) }
{
    let file = write_cif(alloc, layout)?;
    let name = file_name(alloc, &command.out, b".cif")?;
    let text = count_text(alloc, b"boxes", layout.boxes.as_slice().len() as u128)?;
    Ok(Product {
        name,
        file: Some(file),
        text,
    })
}

// What the layout comes to by a plain table.
fn made_plain(
    alloc: Global,
    command: &S2rCommand,
    library: &Library,
    figure: &Figure,
    table: &[u8],
) -> Result<Product, Refusal>
    requires figure { IsReadyFigure figure.now }
    requires plain { is_process_text table.now ≡ false }
    ensures { (catal source : List ℕ) (cells : List (List ℕ)) → IsLibraryOf false catal cells library.now → IsApText source figure.now
        → IsJudged (Makes command.now (texts source table.now catal cells)) result }
{
    let table = match read_table(alloc, table) {
        Ok(table) => table,
        Err(error) => return Err(Refusal::plain(refused(alloc, &command.table, error))),
    };
    let layout = match to_real(alloc, figure, library, &table) {
        Ok(layout) => layout,
        Err(error) => return Err(Refusal::plain(real_status(alloc, command, error))),
    };
    let product = product(alloc, command, &layout)?;
    Ok(product)
}

// What the layout comes to, by the table.
fn made(
    alloc: Global,
    command: &S2rCommand,
    library: &Library,
    source: &[u8],
    table: &[u8],
) -> Result<Product, Refusal>
    ensures { (catal : List ℕ) (cells : List (List ℕ)) → IsLibraryOf false catal cells library.now
        → IsJudged (Makes command.now (texts source.now table.now catal cells)) result }
{
    // What is read has its checks behind it.
    what_is_read_is_a_figure();
    let figure = match read_ap(alloc, source) {
        Ok(figure) => figure,
        Err(error) => return Err(Refusal::plain(refused(alloc, &command.source, error))),
    };
    if is_process(table) {
        made_process(alloc, command, library, &figure, table)
    } else {
        made_plain(alloc, command, library, &figure, table)
    }
}

/// `s2r`, with what it is asked: it makes the real layout of the one in SOURCE by the table in TABLE, writes it to NAME.cif, and prints
/// `boxes` and how many boxes of metal it has; by a table of a process it writes the boxes of all layers, and prints how many they are.
///
/// All files are read first: SOURCE, TABLE, CATAL, and the behaviour and the layout of each cell that this uses. Then it is refused, in
/// this order: by `Library`, or a limit of CATAL or of a cell, at the first line or cell at fault; by `Source`, or a limit, of SOURCE;
/// by `Source` of TABLE; by `Source` of `UnknownCell`, at the first instance of a cell that the library hasn't; by `Source` of
/// `Unsupported`, at the first instance of a cell that isn't mappable; by `Limit` of `Size`, where there are 2^32 or more shapes. By a
/// plain table the last is `Near`, at the first two shapes of one metal that don't touch, but whose boxes would. By a table of a process
/// there come `Source` of `Unsupported`, at the first layer or contact whose metal would be lost; `Near`, at the first two shapes of one
/// metal that don't touch, but whose boxes would; `Broken`, at the first two that touch, and whose boxes wouldn't; `Limit` of `Size`,
/// where there are 2^32 or more boxes; `Broken`, at the first box that is off the grid or has no area; and `Near`, at the first two boxes
/// that are nearer than the table says. Memory goes by the files, the shapes of the layout, its boxes and those of its pairs that are too near.
impl LibraryTool for S2rCommand {
    ghost use Rattle.std.specs.Prelude.{refl, [], ◌∷◌};
    ghost use Rattle.tool_drive.specs.Plan.{limited, large};
    ghost use Rattle.s2r_run.specs.S2r.{s2r_answers, no_library};

    ghost files = { λ t. large t.source ∷ limited t.table ∷ [] };

    ghost folder = { λ t. t.library };

    ghost answers = { s2r_answers };

    fn own_files(&self, alloc: Global) -> Result<Vec<Wanted>, AllocError> {
        let mut wanted = Vec::new(alloc);
        wanted.push(Wanted::large(self.source.copy(alloc)?))?;
        wanted.push(Wanted::limited(self.table.copy(alloc)?))?;
        Ok(wanted)
    }

    fn library_folder(&self) -> &FileName {
        &self.library
    }

    fn judge_with(&self, alloc: Global, library: &Library, first: &[FileBytes]) -> Answer {
        made(alloc, self, library, bytes_at(first, 0), bytes_at(first, 1))
    }

    ghost refuses = { λ t first more e h. (refl, no_library e h refl) };
}
