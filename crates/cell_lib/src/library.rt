// Checks the cells of a library.
ghost use Rattle.std.specs.Prelude.{IfOk, IfErr};
ghost use Rattle.vlsi_base.specs.Member.{AllDifferent};
ghost use Rattle.std.specs.Prelude.{◌≡◌};
ghost use Rattle.catal.specs.Catal.{IsCatal};
ghost use Rattle.cell_lib.specs.Cells.{sources, AreCells, IsFirstRefused, OrMemory};
ghost use Rattle.cell_lib.specs.Library.{IsCell, IsCellRefusal, AreLibrary, IsLibraryRefusal, IsRefusedList, IsLibraryOf, IsRefusedLibrary, status_of};

use crate::cells::cells_of;
use crate::load::refused;
use crate::{LibError, LibraryFiles};
use catal::read_catal;
use cell_checks::Library;
use std::alloc::Global;
use tool_drive::{FileCause, LibraryFault, Status};
use vlsi_base::{FileBytes, Texts};

/// The cells that a CATAL uses, in its order and in lower case, or how a library with this list is refused. Takes memory for the names.
pub fn read_list(alloc: Global, catal: &[u8]) -> Result<Texts, LibError>
    ensures ok { IfOk result (λ names. IsCatal catal.now names) }
    ensures err { IfErr result (λ e. IsRefusedList catal.now e) }
{
    match read_catal(alloc, catal) {
        Ok(names) => Ok(names),
        Err(error) => Err(refused(error)),
    }
}

/// The library of the cells with these names, where `files` are the behaviour and the layout of each, in their order, as `cell_files`
/// asks for them; each of its cells passes its checks.
///
/// The first cell that is none is told, by the first check that it fails: `BadCell` with the number of this check. Its behaviour is
/// read (1), its layout is read and has no instance (2), and the checks of its layout follow (3 to 9, and with tracks 10). Where a
/// file passes a limit, this `Limit` stands in the place of its check; a mappable cell that passes all checks, but is wider than 32
/// columns, is refused by `Limit` of `Width`. Memory goes by the bytes of the files.
pub fn listed_library(
    alloc: Global,
    names: &Texts,
    files: &[FileBytes],
    tracks: bool,
) -> Result<Library, LibError>
    requires { AllDifferent names.now }
    ensures ok { IfOk result (λ library. AreCells (IsCell tracks) (sources names.now files.now) library.cells) }
    ensures err { IfErr result (λ e. OrMemory (IsFirstRefused (IsCell tracks) (IsCellRefusal tracks) (sources names.now files.now)) e) }
{
    let cells = cells_of(alloc, names.as_slice(), files, tracks)?;
    Ok(Library::new(cells))
}

/// The library of these files: `listed_library` of the cells of CATAL, in its order. CATAL gives each name once.
pub fn check_library(alloc: Global, files: &LibraryFiles, tracks: bool) -> Result<Library, LibError>
    requires { AllDifferent files.now.names }
    ensures ok { IfOk result (λ library. AreLibrary tracks files.now library.cells) }
    ensures err { IfErr result (λ e. OrMemory (IsLibraryRefusal tracks files.now) e) }
{
    listed_library(alloc, &files.names, &files.files, tracks)
}

/// The library with this CATAL, where `files` are the behaviour and the layout of each cell that it uses, in its order, as
/// `named_files` asks for them: `read_list`, and then `listed_library`. So lines of CATAL are refused before cells. Memory goes by
/// the bytes of the files.
pub fn read_library(
    alloc: Global,
    catal: &[u8],
    files: &[FileBytes],
    tracks: bool,
) -> Result<Library, LibError>
    ensures ok { IfOk result (λ library. IsLibraryOf tracks catal.now files.now library) }
    ensures err { IfErr result (λ e. OrMemory (IsRefusedLibrary tracks catal.now files.now) e) }
{
    let names = match read_list(alloc, catal) {
        Ok(names) => names,
        Err(error) => return Err(error),
    };
    match listed_library(alloc, &names, files, tracks) {
        Ok(library) => Ok(library),
        Err(error) => Err(error),
    }
}

/// How a tool answers that there is no library.
pub fn library_status(error: LibError) -> Status
    ensures { result ≡ status_of error }
{
    match error {
        LibError::Memory => Status::Memory,
        LibError::Missing(name) => Status::File {
            cause: FileCause::Missing,
            name,
        },
        LibError::ReadFault(name) => Status::File {
            cause: FileCause::ReadFault,
            name,
        },
        LibError::Limit(limit) => Status::Limit(limit),
        LibError::BadCatal(line) => Status::Library(LibraryFault::BadCatal(line)),
        LibError::BadCell { cell, cause } => {
            Status::Library(LibraryFault::BadCell { cell, cause })
        }
    }
}
