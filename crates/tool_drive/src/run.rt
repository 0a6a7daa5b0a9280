// The driver: reads, lets a tool judge, writes and prints what it answers, or tells why it refuses.
ghost use Rattle.std.specs.Prelude.{◌≡◌, ◌≤◌, true, None, OnOk, IsErrOf, IsSome, Ok, Err, length};
ghost use Rattle.vlsi_shelf.specs.declared.shelf.ShelfError.TheVariants.{Missing, Failed, Memory};
ghost use Rattle.vlsi_shelf.specs.Counts.{Rose};
ghost use Rattle.vlsi_shelf.specs.Seen.{SinkSeen};
ghost use Rattle.vlsi_shelf.specs.Shelf.{SameBut};
ghost use Rattle.tool_drive.specs.Outside.{outside, IsLine, IsUntouched};
ghost use Rattle.tool_drive.specs.Status.{has_line};
ghost use Rattle.tool_drive.specs.Lines.{line_of};
ghost use Rattle.tool_drive.specs.Plan.{inputs};
ghost use Rattle.tool_drive.specs.Table.{IsFair, IsStored, Left, Caused, IsComplete};
ghost use Rattle.tool_drive.specs.Stops.{stopped};

use crate::read::{Contents, Stop, read_plan};
use crate::{FileCause, Product, Refusal, Status, Tool, tell};
use std::alloc::Global;
use vlsi_base::{FileBytes, FileName, Limit, LimitKind};
use vlsi_shelf::{Shelf, ShelfError, Sink, SinkError};

// Writes the file of an answer, if there is one.
fn store<S: Shelf>(
    alloc: Global,
    name: &FileName,
    file: &Option<FileBytes>,
    shelf: &mut S,
) -> Result<(), ShelfError>
    ensures ok { OnOk result (IsStored (S.seen shelf.old).files (S.seen shelf.new).files name.now file.now) }
    ensures memory { IsErrOf result Memory → (S.seen shelf.new).files ≡ (S.seen shelf.old).files }
    ensures never_missing { IsErrOf result Missing → ⊥ }
    ensures failed { IsErrOf result Failed
        → Rose (S.seen shelf.old).counts.write_faults (S.seen shelf.new).counts.write_faults }
    ensures others { IsErrOf result Failed → SameBut (S.seen shelf.old).files (S.seen shelf.new).files name.now }
    ensures some { IsErrOf result Failed → IsSome file.now }
{
    match file {
        Some(bytes) => shelf.write(alloc, name, bytes.as_bytes()),
        None => Ok(()),
    }
}

// Writes what a tool answers, and prints its text by one put.
fn deliver<S: Shelf, T: Sink>(alloc: Global, product: Product, shelf: &mut S, out: &mut T) -> Status
    ensures left { Left (λ r. r ≡ Ok product) (outside (S.seen shelf.old) (T.seen out.old))
        (outside (S.seen shelf.new) (T.seen out.new)) result }
    ensures quiet { has_line result ≡ true → (T.seen out.new).told ≡ (T.seen out.old).told }
    ensures faults { (T.seen out.old).faults ≤ (T.seen out.new).faults }
{
    match store(alloc, &product.name, &product.file, shelf) {
        Ok(()) => {}
        Err(ShelfError::Memory) => return Status::Memory,
        Err(ShelfError::Failed) => {
            return Status::File {
                cause: FileCause::WriteFault,
                name: product.name,
            };
        }
        Err(ShelfError::Missing) => unreachable!(),
    }
    match out.put(product.text.as_bytes()) {
        Ok(()) => Status::Accepted,
        Err(SinkError::Memory) => Status::Memory,
        Err(SinkError::Failed) => Status::File {
            cause: FileCause::OutFault,
            name: product.name,
        },
    }
}

// Leaves what a refusal leaves.
fn refuse<S: Shelf>(alloc: Global, refusal: Refusal, shelf: &mut S) -> Status
    requires { IsFair refusal.status refusal.part (Unit {0}) }
    ensures { (t : SinkSeen)
        → Left (λ r. r ≡ Err refusal) (outside (S.seen shelf.old) t) (outside (S.seen shelf.new) t) result }
{
    let Refusal { status, part } = refusal;
    let Some(part) = part else {
        return status;
    };
    match shelf.write(alloc, &part.name, part.bytes.as_bytes()) {
        Ok(()) => status,
        Err(ShelfError::Memory) => Status::Memory,
        Err(ShelfError::Failed) => Status::File {
            cause: FileCause::WriteFault,
            name: part.name,
        },
        Err(ShelfError::Missing) => unreachable!(),
    }
}

// Lets the tool judge, and leaves what it answers.
fn answer<A: Tool, S: Shelf, T: Sink>(
    alloc: Global,
    tool: &A,
    read: &Contents,
    shelf: &mut S,
    out: &mut T,
) -> Status
    requires first { length read.now.first.items ≡ length (A.plan tool.now).first }
    requires more { length read.now.more.items ≡ length ((A.plan tool.now).more read.now.first.items) }
    ensures left { Left (A.answers tool.now (inputs read.now.first.items read.now.more.items))
        (outside (S.seen shelf.old) (T.seen out.old)) (outside (S.seen shelf.new) (T.seen out.new)) result }
    ensures quiet { has_line result ≡ true → (T.seen out.new).told ≡ (T.seen out.old).told }
    ensures faults { (T.seen out.old).faults ≤ (T.seen out.new).faults }
{
    match tool.judge(alloc, &read.first, &read.more) {
        Ok(product) => deliver(alloc, product, shelf, out),
        Err(refusal) => refuse(alloc, refusal, shelf),
    }
}

fn stopped(stop: Stop) -> Status
    ensures { result ≡ stopped stop }
{
    match stop {
        Stop::Memory => Status::Memory,
        Stop::Missing(name) => Status::File {
            cause: FileCause::Missing,
            name,
        },
        Stop::ReadFault(name) => Status::File {
            cause: FileCause::ReadFault,
            name,
        },
        Stop::Long(most) => Status::Limit(Limit {
            which: LimitKind::File,
            reached: most.saturating_add(1),
        }),
    }
}

// Reads, lets the tool judge, and leaves what it answers. A refusal prints nothing yet.
fn perform<A: Tool, S: Shelf, T: Sink>(
    alloc: Global,
    tool: &A,
    shelf: &mut S,
    out: &mut T,
) -> Status
    ensures cause { Caused (A.plan tool.now) (A.answers tool.now)
        (outside (S.seen shelf.old) (T.seen out.old)) (outside (S.seen shelf.new) (T.seen out.new)) result }
    ensures quiet { has_line result ≡ true → (T.seen out.new).told ≡ (T.seen out.old).told }
    ensures faults { (T.seen out.old).faults ≤ (T.seen out.new).faults }
{
    match read_plan(alloc, tool, shelf) {
        Ok(read) => answer(alloc, tool, &read, shelf, out),
        Err(stop) => stopped(stop),
    }
}

/// Runs a tool: reads the files of its plan in their order, lets it judge what stands in them, writes the file that it answers,
/// and prints its text by one put. A refusal prints its line by one put, behind the tool's word; if that fails the status stays
/// as it was. Memory for what is read and answered is taken on `alloc` and given back.
pub fn drive<A: Tool, S: Shelf, T: Sink>(
    alloc: Global,
    word: &[u8],
    tool: &A,
    shelf: &mut S,
    out: &mut T,
) -> Status
    // Every status has its cause and leaves the files that its row says. What was printed is as before the line of a refusal.
    ensures cause { Caused (A.plan tool.now) (A.answers tool.now)
        (outside (S.seen shelf.old) (T.seen out.old)) (outside (S.seen shelf.new) (T.seen out.new)) result }

    // Over told files, where no call on the shelf failed, the status is what they come to.
    ensures complete { IsComplete (A.plan tool.now) (A.answers tool.now)
        (outside (S.seen shelf.old) (T.seen out.old)) (outside (S.seen shelf.new) (T.seen out.new)) result }

    // A refusal prints its line and nothing else, as far as memory and the sink let it.
    ensures line { has_line result ≡ true → IsLine (T.seen out.old) (T.seen out.new) (line_of word.now result) }
{
    let status = perform(alloc, tool, shelf, out);
    if status.has_line() {
        tell(alloc, word, &status, out);
    }
    status
}
