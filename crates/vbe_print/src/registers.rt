// Registers as they are declared.
ghost use Rattle.std.specs.Prelude.{◌≡◌, ◌++◌, ◌<◌, Some, map, length, OnOk};
ghost use Rattle.spell_theory.specs.Layout.{text_of};
ghost use Rattle.vst_print.specs.Groups.{bounds_of, group_of};
ghost use Rattle.vst_print.specs.Pieces.{IsRunEnd};
ghost use Rattle.vbe_print.specs.Written.{as_port, as_ports, register_type, group_layout, registers_layout};

use machine_core::Register;
use std::alloc::{AllocError, Global};
use vlsi_base::{FileBytes, Name};

// The type of the registers of a vector, from its greatest bit down to its least.
fn vector(alloc: Global, out: &mut FileBytes, low: u32, high: u32) -> Result<(), AllocError>
    ensures { OnOk result (out.new ≡ out.old ++ text_of (register_type (bounds_of (Some low) (Some high)))) }
{
    let low = low.to_string(alloc)?;
    let high = high.to_string(alloc)?;
    out.append(b"reg_vector (")?;
    out.append(high.as_bytes())?;
    out.append(b" downto ")?;
    out.append(low.as_bytes())?;
    out.append(b") register")
}

// The type of registers with these bits.
fn kind(
    alloc: Global,
    out: &mut FileBytes,
    low: Option<u32>,
    high: Option<u32>,
) -> Result<(), AllocError>
    ensures { OnOk result (out.new ≡ out.old ++ text_of (register_type (bounds_of low high))) }
{
    match (low, high) {
        (Some(low), Some(high)) => vector(alloc, out, low, high),
        _ => out.append(b"reg_bit register"),
    }
}

// Registers of one text, from the first to the last.
fn group(alloc: Global, out: &mut FileBytes, first: &Name, last: &Name) -> Result<(), AllocError>
    ensures { OnOk result (out.new ≡ out.old ++ text_of (group_layout (group_of (as_port first.now) (as_port last.now)))) }
{
    out.append(b"signal ")?;
    out.append(first.text.as_bytes())?;
    out.append(b" : ")?;
    kind(alloc, out, first.bit, last.bit)?;
    out.append(b";\n")
}

// The first place behind a register whose register has another text.
fn run_end(registers: &[Register], start: usize) -> usize
    requires { start < length registers.now }
    ensures { IsRunEnd (as_ports (map (λ r. r.name) registers.now)) start result }
{
    let mut end = start + 1;
    while end < registers.len()
        && registers[end]
            .name
            .text
            .is_same(&registers[start].name.text)
    {
        end += 1;
    }
    end
}

/// The declarations of registers in the order of names: those of one text on a line.
pub(crate) fn registers(
    alloc: Global,
    out: &mut FileBytes,
    registers: &[Register],
) -> Result<(), AllocError>
    ensures { OnOk result (out.new ≡ out.old ++ text_of (registers_layout (map (λ r. r.name) registers.now))) }
{
    let mut start = 0;
    while start < registers.len() {
        let end = run_end(registers, start);
        group(alloc, out, &registers[start].name, &registers[end - 1].name)?;
        start = end;
    }
    Ok(())
}
