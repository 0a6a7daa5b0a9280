// The files of a library.
ghost use Rattle.std.specs.Prelude.{◌≡◌, IfOk};
ghost use Rattle.tool_drive.specs.Plan.{limited};
ghost use Rattle.catal.specs.Cells.{cells_in};
ghost use Rattle.cell_lib.specs.Files.{catal_name, cell_name, cell_files as files_of};

use catal::{CatalError, read_catal};
use std::alloc::{AllocError, Global};
use tool_drive::Wanted;
use vlsi_base::{FileName, Text, Texts};

/// The list of a library's cells. It takes memory for its name.
pub fn catal_file(alloc: Global, dir: &FileName) -> Result<Wanted, AllocError>
    ensures { IfOk result (λ wanted. wanted ≡ limited (catal_name dir.now)) }
{
    let mut name = dir.copy(alloc)?;
    name.append(b"/CATAL")?;
    Ok(Wanted::limited(name))
}

// A file of a cell, by its ending.
fn cell_file(
    alloc: Global,
    dir: &FileName,
    cell: &Text,
    ending: &[u8],
) -> Result<Wanted, AllocError>
    ensures { IfOk result (λ wanted. wanted ≡ limited (cell_name dir.now cell.now ending.now)) }
{
    let mut name = dir.copy(alloc)?;
    name.append(b"/")?;
    name.append(cell.as_bytes())?;
    name.append(ending)?;
    Ok(Wanted::limited(name))
}

/// The behaviour and the layout of each of these cells, in their order. It takes memory for their names.
pub fn cell_files(alloc: Global, dir: &FileName, names: &Texts) -> Result<Vec<Wanted>, AllocError>
    ensures { IfOk result (λ wanted. wanted.items ≡ files_of dir.now names.now) }
{
    let mut wanted = Vec::new(alloc);
    for name in names.as_slice() {
        wanted.push(cell_file(alloc, dir, name, b".vbe")?)?;
        wanted.push(cell_file(alloc, dir, name, b".ap")?)?;
    }
    Ok(wanted)
}

/// The files of the cells that a CATAL uses. Bytes that are no CATAL name none. It takes memory for the names, and time as reading
/// it does.
pub fn named_files(alloc: Global, dir: &FileName, catal: &[u8]) -> Result<Vec<Wanted>, AllocError>
    ensures { IfOk result (λ wanted. wanted.items ≡ files_of dir.now (cells_in catal.now)) }
{
    match read_catal(alloc, catal) {
        Ok(names) => cell_files(alloc, dir, &names),
        Err(CatalError::Memory) => Err(AllocError),
        Err(CatalError::BadLine(_)) => Ok(Vec::new(alloc)),
        Err(CatalError::Limit(_)) => Ok(Vec::new(alloc)),
    }
}
