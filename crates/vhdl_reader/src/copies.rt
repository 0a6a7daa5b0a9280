// Refusals, once more.
ghost use Rattle.std.specs.Prelude.{◌≡◌, IfOk};
ghost use Rattle.vhdl_front.specs.Front.{OrMemory};

use std::alloc::{AllocError, Global};
use vlsi_base::{InputFault, Name, Names, ReadError};

/// The names, once more.
fn copy_names(alloc: Global, names: &[Name]) -> Result<Names, AllocError>
    ensures { IfOk result (λ made. made ≡ names.now) }
{
    let mut copies = Vec::new(alloc);
    for name in names {
        let copy = name.copy(alloc)?;
        copies.push(copy)?;
    }
    Ok(Names::new(copies))
}

/// The fault, once more.
pub fn copy_fault(alloc: Global, fault: &InputFault) -> Result<InputFault, AllocError>
    ensures { IfOk result (λ made. made ≡ fault.now) }
{
    let names = copy_names(alloc, fault.names.as_slice())?;
    Ok(InputFault {
        line: fault.line,
        kind: fault.kind,
        names,
    })
}

/// The error, once more, or `Memory`.
pub fn repeat(alloc: Global, error: &ReadError) -> ReadError
    ensures { OrMemory error.now result }
{
    match error {
        ReadError::Memory => ReadError::Memory,
        ReadError::Limit(limit) => ReadError::Limit(*limit),
        ReadError::Input(fault) => match copy_fault(alloc, fault) {
            Ok(copy) => ReadError::Input(copy),
            Err(_) => ReadError::Memory,
        },
    }
}
