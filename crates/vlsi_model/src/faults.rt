// Faults of a source.
ghost use Rattle.std.specs.Prelude.{◌≡◌, ◌∷◌, [], IfOk};
ghost use Rattle.source_checks.specs.Checks.{fault};
ghost use Rattle.vlsi_model.specs.Stages.{line_fault};

use std::alloc::{AllocError, Global};
use vlsi_base::{FaultKind, InputFault, Name, Names, ReadError, Text};

/// A fault with these names.
pub fn fault(kind: FaultKind, line: u32, names: Vec<Name>) -> ReadError
    ensures { result ≡ fault kind line names.items }
{
    ReadError::Input(InputFault {
        line,
        kind,
        names: Names::new(names),
    })
}

/// A fault with one name.
pub fn name_fault(
    alloc: Global,
    kind: FaultKind,
    line: u32,
    name: Name,
) -> Result<ReadError, AllocError>
    ensures { IfOk result (λ e. e ≡ fault kind line (name ∷ [])) }
{
    let mut names = Vec::new(alloc);
    names.push(name)?;
    Ok(fault(kind, line, names))
}

/// A fault with one name, which has no bit.
pub fn text_fault(
    alloc: Global,
    kind: FaultKind,
    line: u32,
    text: &Text,
) -> Result<ReadError, AllocError>
    ensures { IfOk result (λ e. e ≡ fault kind line (record { text = text.now; bit = None } ∷ [])) }
{
    let name = Name::scalar(text.copy(alloc)?);
    name_fault(alloc, kind, line, name)
}

/// The fault at a line, if there is one.
pub fn line_fault(alloc: Global, kind: FaultKind, line: Option<u32>) -> Option<ReadError>
    ensures { result ≡ line_fault kind line }
{
    line.map(|line| fault(kind, line, Vec::new(alloc)))
}
