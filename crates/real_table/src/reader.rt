// The reader of tables of a process.
ghost use Rattle.std.specs.Prelude.{◌≡◌, ◌≤◌, IfErr, IfOk, length};
ghost use Rattle.real_table.specs.Bounds.{IsProcessTable};
ghost use Rattle.real_table.specs.Process.{IsProcessRefusal, IsProcessRefusalOf, IsProcessText, IsProcessTextOf, fault_on, is_process as begins_as_process};
ghost use Rattle.real_table.specs.Reading.{AreRead, IsLinesRefusal};

use crate::head::read_head;
use crate::lines::read_entry;
use crate::table::{Entry, ProcessTable};
use std::alloc::Global;
use vlsi_base::{
    FaultKind, InputFault, Limit, LimitKind, Lines, Listed, MOST_SOURCE_BYTES, Names, ReadError,
};

/// Whether a table is one of a process: its first bytes are `process` and a space.
pub fn is_process(bytes: &[u8]) -> bool
    ensures { result ≡ begins_as_process bytes.now }
{
    bytes.starts_with(b"process ")
}

fn fault(alloc: Global, line: u32, kind: FaultKind) -> ReadError
    ensures { result ≡ fault_on line kind }
{
    ReadError::Input(InputFault {
        line,
        kind,
        names: Names::new(Vec::new(alloc)),
    })
}

/// What the lines behind the first one say.
fn read_entries(alloc: Global, lines: &mut Lines<'_>) -> Result<Vec<Entry>, ReadError>
    requires { length lines.old ≤ MOST_SOURCE_BYTES }
    ensures read { IfOk result (λ entries. AreRead lines.old entries.items) }
    ensures refused { IfErr result (λ e. IsLinesRefusal lines.old e) }
{
    let mut entries = Vec::new(alloc);
    let mut number = 1u32;
    while let Some(line) = lines.next_line() {
        number += 1;
        let Some(entry) = read_entry(alloc, line)? else {
            return Err(fault(alloc, number, FaultKind::BadLine));
        };
        entries.push(entry)?;
    }
    Ok(entries)
}

/// A table of these lines.
fn read_lines(alloc: Global, lines: &mut Lines<'_>) -> Result<ProcessTable, ReadError>
    requires { length lines.old ≤ MOST_SOURCE_BYTES }
    ensures read { IfOk result (λ t. IsProcessTextOf lines.old t) }
    ensures bounds { IfOk result (λ t. IsProcessTable t) }
    ensures refused { IfErr result (λ e. IsProcessRefusalOf lines.old e) }
{
    let Some(first) = lines.next_line() else {
        return Err(fault(alloc, 1, FaultKind::NoEnd));
    };
    let Some(head) = read_head(first) else {
        return Err(fault(alloc, 1, FaultKind::BadLine));
    };
    let entries = read_entries(alloc, lines)?;
    Ok(ProcessTable {
        head,
        entries: Listed::new(entries),
    })
}

/// Reads a table of a process: the line `process NAME unit D scale K grid G`, and further lines that each say something. It is refused
/// by `Limit` of `File` where it has more than 1,048,576 bytes, and else at its first line that has no such form. Memory and time go
/// by the lines.
pub fn read_process(alloc: Global, bytes: &[u8]) -> Result<ProcessTable, ReadError>
    ensures read { IfOk result (λ t. IsProcessText bytes.now t) }
    ensures bounds { IfOk result (λ t. IsProcessTable t) }
    ensures refused { IfErr result (λ e. IsProcessRefusal bytes.now e) }
{
    if bytes.len() > MOST_SOURCE_BYTES {
        return Err(ReadError::Limit(Limit {
            which: LimitKind::File,
            reached: MOST_SOURCE_BYTES as u64 + 1,
        }));
    }
    let mut lines = Lines::new(bytes);
    read_lines(alloc, &mut lines)
}
