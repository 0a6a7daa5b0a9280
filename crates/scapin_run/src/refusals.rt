// How it is told that a netlist gets no scan path.
ghost use Rattle.std.specs.Prelude.{◌≡◌, slice_index_or};
ghost use Rattle.tool_drive.specs.Refusals.{MemoryOr};
ghost use Rattle.scapin_run.specs.Scapin.{fault_at, line_of, IsToldOf};

use crate::words::ScapinCommand;
use path_io::PathFile;
use scapin::ScanError;
use std::alloc::Global;
use tool_drive::{Status, named_fault};
use vlsi_base::{FaultKind, FileName, InputFault, Name, Names, Text};

// The status of a fault at a line of a file, with one name.
fn fault_at(alloc: Global, file: &FileName, line: u32, kind: FaultKind, text: Text) -> Status
    ensures { MemoryOr result (result ≡ fault_at file.now line kind text) }
{
    let mut names = Vec::new(alloc);
    match names.push(Name::scalar(text)) {
        Ok(()) => match file.copy(alloc) {
            Ok(file) => Status::Source {
                file,
                fault: InputFault {
                    line,
                    kind,
                    names: Names::new(names),
                },
            },
            Err(_) => Status::Memory,
        },
        Err(_) => Status::Memory,
    }
}

// The line of the name at a place of a path; past the end the last line.
fn line_at(path: &PathFile, place: usize) -> u32
    ensures { result ≡ slice_index_or path.now.lines.items place path.now.last }
{
    match path.lines.get(place) {
        Some(line) => *line,
        None => path.last,
    }
}

// The line of the name behind so many of its text; past the end the last line.
fn line_of(path: &PathFile, text: &Text, before: usize) -> u32
    ensures { result ≡ line_of path.now text.now before }
{
    let mut left = before;
    for place in 0..path.names.len() {
        if !path.names[place].is_same(text) {
            continue;
        }
        if left == 0 {
            return line_at(path, place);
        }
        left -= 1;
    }
    path.last
}

/// How a refusal is told: a name that is taken on line 1 of SOURCE, and a name of the path that is no register's, or stood before, on its
/// line of PATH; a register that the path lacks on the last line of PATH.
pub(crate) fn scan_status(
    alloc: Global,
    command: &ScapinCommand,
    path: &PathFile,
    error: ScanError,
) -> Status
    ensures { MemoryOr result (IsToldOf command.now path.now error result) }
{
    match error {
        ScanError::Memory => Status::Memory,
        ScanError::Taken(text) => {
            named_fault(alloc, &command.source, FaultKind::Twice, Name::scalar(text))
        }
        ScanError::NoCover(kind) => Status::NoCover(kind),
        ScanError::Unknown(text) => {
            let line = line_of(path, &text, 0);
            fault_at(alloc, &command.path, line, FaultKind::Unknown, text)
        }
        ScanError::Twice(text) => {
            let line = line_of(path, &text, 1);
            fault_at(alloc, &command.path, line, FaultKind::Twice, text)
        }
        ScanError::Left(text) => {
            fault_at(
                alloc,
                &command.path,
                path.last,
                FaultKind::NotAssigned,
                text,
            )
        }
    }
}
