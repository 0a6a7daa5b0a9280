// What is written and printed of a machine.
ghost use Rattle.std.specs.Prelude.{◌≡◌, ◌<◌, ◌+◌, ◌^◌, length, IfOk};
ghost use Rattle.vbe_print.specs.Writable.{CanBeVbe};
ghost use Rattle.flatbeh_run.specs.Flatbeh.{report as report_of, IsWrittenAs};

use machine_core::{Machine, machine_size};
use std::alloc::{AllocError, Global};
use tool_drive::{Product, count_text, file_name};
use vbe_print::write_vbe;
use vlsi_base::{FileBytes, FileName};

// How large a machine is.
fn report(alloc: Global, machine: &Machine) -> Result<FileBytes, AllocError>
    ensures { IfOk result (λ text. text ≡ report_of machine.now) }
{
    count_text(alloc, b"size", u128::from(machine_size(machine)))
}

/// The machine's file, NAME.vbe, and what is printed.
pub(crate) fn product(
    alloc: Global,
    out: &FileName,
    machine: &Machine,
) -> Result<Product, AllocError>
    requires names { CanBeVbe machine.now }
    requires few { length machine.now.vars + length machine.now.ports < 2 ^ 32 }
    ensures { IfOk result (λ p. IsWrittenAs out.now machine.now p) }
{
    let file = write_vbe(alloc, machine)?;
    let name = file_name(alloc, out, b".vbe")?;
    let text = report(alloc, machine)?;
    Ok(Product {
        name,
        file: Some(file),
        text,
    })
}
