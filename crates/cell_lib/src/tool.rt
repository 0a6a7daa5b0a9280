// Tools that read files of their own and a library of cells.
ghost use Rattle.std.specs.Prelude.{◌≡◌, ◌-◌, [], get_or, length};

use crate::{catal_file, library_status, named_files, read_library};
use cell_checks::Library;
use std::alloc::{AllocError, Global};
use tool_drive::{Answer, Refusal, Tool, Wanted, bytes_at};
use vlsi_base::{FileBytes, FileName};

/// A tool that reads files of its own and a library, and refuses a bad library before it looks at the files.
pub trait LibraryTool {
    ghost use Rattle.std.specs.Prelude.{◌≡◌, ℕ, List, [], get_or, length, None, Result, Err, IfOk, false};
    ghost use Rattle.tool_drive.specs.declared.tool.Wanted.{Wanted};
    ghost use Rattle.tool_drive.specs.declared.tool.Product.{Product};
    ghost use Rattle.tool_drive.specs.declared.tool.Refusal.{Refusal};
    ghost use Rattle.tool_drive.specs.Plan.{Inputs, inputs};
    ghost use Rattle.tool_drive.specs.Table.{IsJudged, refusal};
    ghost use Rattle.cell_lib.specs.declared.error.LibError.{LibError};
    ghost use Rattle.cell_lib.specs.Library.{IsLibraryOf, IsRefusedLibrary, IsRead, status_of};

    /// The files of its own, in their order.
    ghost files: { Self → List Wanted };

    /// The folder of the library.
    ghost folder: { Self → List ℕ };

    /// What it answers to what stands in them and in the library's files.
    ghost answers: { Self → Inputs → Result Product Refusal → Type 0 };

    /// The files of its own. It takes memory for their names.
    fn own_files(&self, alloc: Global) -> Result<Vec<Wanted>, AllocError>
        ensures { IfOk result (λ wanted. wanted.items ≡ files self.now) };

    /// The folder of the library. Takes no memory.
    fn library_folder(&self) -> &FileName
        ensures { result.now ≡ folder self.now };

    /// What its files come to, with a library that is read: `first` are its own files, and behind them CATAL. No file is read or
    /// written.
    fn judge_with(&self, alloc: Global, library: &Library, first: &[FileBytes]) -> Answer
        requires { IsRead library.now }
        ensures { (more : List (List ℕ)) → IsLibraryOf false (get_or first.now (length (files self.now)) []) more library.now
            → IsJudged (answers self.now (inputs first.now more)) result };

    /// A library that is refused is answered so.
    ghost refuses: { (t : Self) (first more : List (List ℕ)) (e : LibError)
        → IsRefusedLibrary false (get_or first (length (files t)) []) more e
        → answers t (inputs first more) (Err (refusal (status_of e) None)) };
}

/// Such a tool for the driver: it reads its own files, then CATAL, and then behaviour and layout of each cell that this uses.
#[derive(Drop)]
pub struct WithLibrary<'a, T>(pub &'a T);

// What stands in CATAL, the last of the files that the words name.
fn catal_in(first: &[FileBytes]) -> &[u8]
    ensures { result.now ≡ get_or first.now (length first.now - 1) [] }
{
    bytes_at(first, first.len().saturating_sub(1))
}

impl<T: LibraryTool> Tool for WithLibrary<'_, T> {
    ghost use Rattle.cell_lib.specs.Files.{with_library};

    ghost plan = { λ w. with_library (T.files w.0.now) (T.folder w.0.now) };

    ghost answers = { λ w. T.answers w.0.now };

    fn first(&self, alloc: Global) -> Result<Vec<Wanted>, AllocError> {
        let mut wanted = self.0.own_files(alloc)?;
        wanted.push(catal_file(alloc, self.0.library_folder())?)?;
        Ok(wanted)
    }

    fn more(&self, alloc: Global, first: &[FileBytes]) -> Result<Vec<Wanted>, AllocError> {
        named_files(alloc, self.0.library_folder(), catal_in(first))
    }

    fn judge(&self, alloc: Global, first: &[FileBytes], more: &[FileBytes]) -> Answer {
        match read_library(alloc, catal_in(first), more, false) {
            Ok(library) => self.0.judge_with(alloc, &library, first),
            Err(error) => Err(Refusal::plain(library_status(error))),
        }
    }
}
