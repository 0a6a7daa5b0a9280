// The lines of codes.
ghost use Rattle.std.specs.Prelude.{◌≡◌, ◌++◌, OnOk};
ghost use Rattle.syf_run.specs.Syf.{bit_digit, code_text, code_line, code_lines};

use bool_expr::Bits;
use std::alloc::{AllocError, Global};
use vlsi_base::{FileBytes, Name};

// The digit of a bit.
fn bit_digit(bit: bool) -> u8
    ensures { result ≡ bit_digit bit }
{
    if bit { b'1' } else { b'0' }
}

// A code from its highest bit to bit 0, and a dash for one without bits.
fn code_text(out: &mut FileBytes, code: &[bool]) -> Result<(), AllocError>
    ensures { OnOk result (out.new ≡ out.old ++ code_text code.now) }
{
    if code.is_empty() {
        return out.append(b"-");
    }
    for bit in code.iter().rev() {
        out.append(&[bit_digit(*bit)])?;
    }
    Ok(())
}

// A state with its code on a line.
fn code_line(
    alloc: Global,
    out: &mut FileBytes,
    state: &Name,
    code: &[bool],
) -> Result<(), AllocError>
    ensures { OnOk result (out.new ≡ out.old ++ code_line state.now code.now) }
{
    let state = state.to_text(alloc)?;
    out.append(b"code ")?;
    out.append(state.as_bytes())?;
    out.append(b" ")?;
    code_text(out, code)?;
    out.append(b"\n")
}

/// Puts each state with its code on a line behind what is there.
pub fn code_lines(
    alloc: Global,
    out: &mut FileBytes,
    states: &[Name],
    codes: &[Bits],
) -> Result<(), AllocError>
    ensures { OnOk result (out.new ≡ out.old ++ code_lines states.now codes.now) }
{
    for (state, code) in states.iter().zip(codes) {
        code_line(alloc, out, state, code.as_slice())?;
    }
    Ok(())
}
