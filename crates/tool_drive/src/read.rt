// Reads the files of a plan.
ghost use Rattle.std.specs.Prelude.{◌≡◌, IfOk, IfErr, length};
ghost use Rattle.tool_drive.specs.declared.read.Stop.TheVariants.{Memory};
ghost use Rattle.tool_drive.specs.Outside.{OnlyReads};
ghost use Rattle.tool_drive.specs.Plan.{got, Comes, Gathers, WasRead};
ghost use Rattle.tool_drive.specs.Stops.{IsFileStop, IsListStop, IsPlanStop};

use crate::{Tool, Wanted};
use std::alloc::{AllocError, AllocFailed, Global};
use vlsi_base::{FileBytes, FileName};
use vlsi_shelf::{Shelf, ShelfError};

/// Why reading stops.
#[derive(Drop)]
pub enum Stop {
    Memory,
    Missing(FileName),
    ReadFault(FileName),
    /// A file has more bytes than this.
    Long(u64),
}

impl From<AllocError> for Stop {
    ghost from_gives = { λ _ e. e ≡ Memory };

    fn from(_: AllocError) -> Self {
        Stop::Memory
    }
}

impl<T: Drop> From<AllocFailed<T>> for Stop {
    ghost from_gives = { λ _ e. e ≡ Memory };

    fn from(_: AllocFailed<T>) -> Self {
        Stop::Memory
    }
}

/// What was read.
#[derive(Drop)]
pub struct Contents {
    pub first: Vec<FileBytes>,
    pub more: Vec<FileBytes>,
}

// Reads a file that may not be too long.
fn read_file<S: Shelf>(alloc: Global, wanted: &Wanted, shelf: &mut S) -> Result<FileBytes, Stop>
    ensures ok { IfOk result (λ bytes. Comes (S.seen shelf.old).files wanted.now (got bytes)) }
    ensures err { IfErr result (λ stop. IsFileStop (S.seen shelf.old) (S.seen shelf.new) wanted.now stop) }
    ensures reads { OnlyReads (S.seen shelf.old) (S.seen shelf.new) }
{
    let name = wanted.name.copy(alloc)?;
    match shelf.read(alloc, &wanted.name, wanted.most) {
        Ok(bytes) => {
            if bytes.as_bytes().len() as u64 > wanted.most {
                return Err(Stop::Long(wanted.most));
            }
            Ok(bytes)
        }
        Err(ShelfError::Memory) => Err(Stop::Memory),
        Err(ShelfError::Missing) => Err(Stop::Missing(name)),
        Err(ShelfError::Failed) => Err(Stop::ReadFault(name)),
    }
}

/// Reads files in their order, and stops at the first that isn't had. No file is written. Memory goes by their bytes.
pub fn read_list<S: Shelf>(
    alloc: Global,
    wanted: &[Wanted],
    shelf: &mut S,
) -> Result<Vec<FileBytes>, Stop>
    ensures ok { IfOk result (λ read. Gathers (S.seen shelf.old).files wanted.now (got read.items)) }
    ensures counted { IfOk result (λ read. length read.items ≡ length wanted.now) }
    ensures err { IfErr result (λ stop. IsListStop (S.seen shelf.old) (S.seen shelf.new) wanted.now stop) }
    ensures reads { OnlyReads (S.seen shelf.old) (S.seen shelf.new) }
{
    let mut read = Vec::new(alloc);
    for item in wanted {
        match read_file(alloc, item, shelf) {
            Ok(bytes) => read.push(bytes)?,
            Err(stop) => return Err(stop),
        }
    }
    Ok(read)
}

fn read_first<A: Tool, S: Shelf>(
    alloc: Global,
    tool: &A,
    shelf: &mut S,
) -> Result<Vec<FileBytes>, Stop>
    ensures ok { IfOk result (λ first. Gathers (S.seen shelf.old).files (A.plan tool.now).first (got first.items)) }
    ensures counted { IfOk result (λ first. length first.items ≡ length (A.plan tool.now).first) }
    ensures err { IfErr result (λ stop. IsListStop (S.seen shelf.old) (S.seen shelf.new) (A.plan tool.now).first stop) }
    ensures reads { OnlyReads (S.seen shelf.old) (S.seen shelf.new) }
{
    let wanted = tool.first(alloc)?;
    read_list(alloc, &wanted, shelf)
}

fn read_more<A: Tool, S: Shelf>(
    alloc: Global,
    tool: &A,
    first: &[FileBytes],
    shelf: &mut S,
) -> Result<Vec<FileBytes>, Stop>
    requires { length first.now ≡ length (A.plan tool.now).first }
    ensures ok { IfOk result (λ more. Gathers (S.seen shelf.old).files ((A.plan tool.now).more first.now) (got more.items)) }
    ensures counted { IfOk result (λ more. length more.items ≡ length ((A.plan tool.now).more first.now)) }
    ensures err { IfErr result (λ stop. IsListStop (S.seen shelf.old) (S.seen shelf.new)
        ((A.plan tool.now).more first.now) stop) }
    ensures reads { OnlyReads (S.seen shelf.old) (S.seen shelf.new) }
{
    let wanted = tool.more(alloc, first)?;
    read_list(alloc, &wanted, shelf)
}

/// Reads the files that the words name, and then those that their contents name. No file is written.
pub fn read_plan<A: Tool, S: Shelf>(
    alloc: Global,
    tool: &A,
    shelf: &mut S,
) -> Result<Contents, Stop>
    ensures ok { IfOk result (λ read. WasRead (S.seen shelf.old).files (A.plan tool.now) read.first.items read.more.items) }
    ensures err { IfErr result (λ stop. IsPlanStop (S.seen shelf.old) (S.seen shelf.new) (A.plan tool.now) stop) }
    ensures reads { OnlyReads (S.seen shelf.old) (S.seen shelf.new) }
{
    let first = match read_first(alloc, tool, shelf) {
        Ok(first) => first,
        Err(stop) => return Err(stop),
    };
    match read_more(alloc, tool, &first, shelf) {
        Ok(more) => Ok(Contents { first, more }),
        Err(stop) => Err(stop),
    }
}
