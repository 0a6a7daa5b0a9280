// Reads the files of a library.
ghost use Rattle.std.specs.Prelude.{◌≡◌, IfOk, IfErr, length};
ghost use Rattle.tool_drive.specs.Outside.{OnlyReads};
ghost use Rattle.tool_drive.specs.Plan.{got, Gathers};
ghost use Rattle.tool_drive.specs.Stops.{IsListStop};
ghost use Rattle.cell_lib.specs.Files.{cell_files as files_of, library_plan};
ghost use Rattle.cell_lib.specs.Load.{stopped as stopped_by, refused as refused_by, IsLoaded, IsLoadRefusal};

use crate::{LibError, catal_file, cell_files};
use catal::{CatalError, read_catal};
use std::alloc::Global;
use tool_drive::{Stop, bytes_at, read_list};
use vlsi_base::{FileBytes, FileName, Limit, LimitKind, Texts};
use vlsi_shelf::Shelf;

/// What stands in the files of a library.
#[derive(Drop)]
pub struct LibraryFiles {
    /// The cells that CATAL uses, in its order and in lower case.
    pub names: Texts,
    /// The behaviour and the layout of each of them, in the same order.
    pub files: Vec<FileBytes>,
}

fn stopped(stop: Stop) -> LibError
    ensures { result ≡ stopped_by stop }
{
    match stop {
        Stop::Memory => LibError::Memory,
        Stop::Missing(name) => LibError::Missing(name),
        Stop::ReadFault(name) => LibError::ReadFault(name),
        Stop::Long(most) => LibError::Limit(Limit {
            which: LimitKind::File,
            reached: most.saturating_add(1),
        }),
    }
}

pub(crate) fn refused(error: CatalError) -> LibError
    ensures { result ≡ refused_by error }
{
    match error {
        CatalError::Memory => LibError::Memory,
        CatalError::BadLine(line) => LibError::BadCatal(line),
        CatalError::Limit(limit) => LibError::Limit(limit),
    }
}

fn load_catal<S: Shelf>(
    alloc: Global,
    shelf: &mut S,
    dir: &FileName,
) -> Result<Vec<FileBytes>, Stop>
    ensures ok { IfOk result (λ first. Gathers (S.seen shelf.old).files (library_plan dir.now).first (got first.items)) }
    ensures counted { IfOk result (λ first. length first.items ≡ 1) }
    ensures err { IfErr result (λ stop. IsListStop (S.seen shelf.old) (S.seen shelf.new) (library_plan dir.now).first stop) }
    ensures reads { OnlyReads (S.seen shelf.old) (S.seen shelf.new) }
{
    let mut wanted = Vec::new(alloc);
    wanted.push(catal_file(alloc, dir)?)?;
    read_list(alloc, &wanted, shelf)
}

fn load_cells<S: Shelf>(
    alloc: Global,
    shelf: &mut S,
    dir: &FileName,
    names: &Texts,
) -> Result<Vec<FileBytes>, Stop>
    ensures ok { IfOk result (λ more. Gathers (S.seen shelf.old).files (files_of dir.now names.now) (got more.items)) }
    ensures counted { IfOk result (λ more. length more.items ≡ length (files_of dir.now names.now)) }
    ensures err { IfErr result (λ stop. IsListStop (S.seen shelf.old) (S.seen shelf.new) (files_of dir.now names.now) stop) }
    ensures reads { OnlyReads (S.seen shelf.old) (S.seen shelf.new) }
{
    let wanted = cell_files(alloc, dir, names)?;
    read_list(alloc, &wanted, shelf)
}

/// Reads the files of the library in a folder: its CATAL, and then behaviour and layout of each cell that this uses, in the order
/// of its lines. No file is written. Memory goes by the bytes of the files.
///
/// The first step that fails is answered. `Missing`: a file isn't there. `ReadFault`: a file can't be read. `Limit` of `File`: a
/// file has more than 1,048,576 bytes. `BadCatal`, and `Limit` of `Ident` and of `Cells`: CATAL is refused, before a cell's file
/// is read. It never answers `BadCell`.
pub fn load_library<S: Shelf>(
    alloc: Global,
    shelf: &mut S,
    dir: &FileName,
) -> Result<LibraryFiles, LibError>
    ensures ok { IfOk result (λ files. IsLoaded (S.seen shelf.old).files dir.now files) }
    ensures err { IfErr result (λ e. IsLoadRefusal (S.seen shelf.old) (S.seen shelf.new) dir.now e) }
    ensures reads { OnlyReads (S.seen shelf.old) (S.seen shelf.new) }
{
    let first = match load_catal(alloc, shelf, dir) {
        Ok(first) => first,
        Err(stop) => return Err(stopped(stop)),
    };
    let names = match read_catal(alloc, bytes_at(&first, 0)) {
        Ok(names) => names,
        Err(error) => return Err(refused(error)),
    };
    match load_cells(alloc, shelf, dir, &names) {
        Ok(files) => Ok(LibraryFiles { names, files }),
        Err(stop) => Err(stopped(stop)),
    }
}
