// Refusals of texts.
ghost use Rattle.std.specs.Prelude.{◌≡◌, ◌∷◌, []};
ghost use Rattle.vlsi_base.specs.Names.{scalar};
ghost use Rattle.tool_drive.specs.Refusals.{MemoryOr, OfFile, whole_fault as whole_fault_of};

use crate::Status;
use std::alloc::Global;
use vlsi_base::{FaultKind, FileName, InputFault, Name, Names, ReadError, Text};

/// The status of a file whose text a reader refuses.
pub fn refused(alloc: Global, file: &FileName, error: ReadError) -> Status
    ensures { MemoryOr result (OfFile file.now (λ e. e ≡ error) result) }
{
    match error {
        ReadError::Memory => Status::Memory,
        ReadError::Limit(limit) => Status::Limit(limit),
        ReadError::Input(fault) => match file.copy(alloc) {
            Ok(file) => Status::Source { file, fault },
            Err(_) => Status::Memory,
        },
    }
}

/// The status of a fault of the whole file, with names.
pub fn whole_fault(alloc: Global, file: &FileName, kind: FaultKind, names: Vec<Name>) -> Status
    ensures { MemoryOr result (result ≡ whole_fault_of file.now kind names.items) }
{
    match file.copy(alloc) {
        Ok(file) => Status::Source {
            file,
            fault: InputFault {
                line: 1,
                kind,
                names: Names::new(names),
            },
        },
        Err(_) => Status::Memory,
    }
}

/// The status of a fault of the whole file, with one name.
pub fn named_fault(alloc: Global, file: &FileName, kind: FaultKind, name: Name) -> Status
    ensures { MemoryOr result (result ≡ whole_fault_of file.now kind (name ∷ [])) }
{
    let mut names = Vec::new(alloc);
    match names.push(name) {
        Ok(()) => whole_fault(alloc, file, kind, names),
        Err(_) => Status::Memory,
    }
}

/// The status of an instance in a file whose cell isn't in the library.
pub fn unknown_cell(alloc: Global, file: &FileName, model: Text) -> Status
    ensures { MemoryOr result (result ≡ whole_fault_of file.now FaultKind.UnknownCell (scalar model ∷ [])) }
{
    named_fault(alloc, file, FaultKind::UnknownCell, Name::scalar(model))
}
