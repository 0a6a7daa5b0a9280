// What is written in a text that leaves something free, and its machines.
ghost use Rattle.std.specs.Prelude.{◌≡◌, ◌<◌, ◌^◌, length, IfOk, IfErr};
ghost use Rattle.vhdl_lexer.specs.Listing.{tokens_in};
ghost use Rattle.source_checks.specs.Operators.{HasShortExpressions};
ghost use Rattle.source_checks.specs.Symbols.{symbols, all_names};
ghost use Rattle.vbe_text.specs.Source.{source_view};
ghost use Rattle.vbe_text.specs.Vbe.{IsSource, IsRefusedSource};
ghost use Rattle.vbe_free.specs.Checked.{form_fault, IsPlacedMachine, IsPlacedRefusal, IsLowOf, IsLowRefusal, AreMachinesOf};
ghost use Rattle.vbe_free.specs.Tokens.{with_operands};
ghost use Rattle.vbe_free.specs.Text.{is_earlier, unsupported, with_form, IsFreeVbe, IsFreeRefusal};

use crate::filling::filled_source;
use crate::misplaced::misplaced;
use crate::second::with_ones;
use crate::tokens::with_operands;
use machine_core::Machine;
use machine_free::FreeMachine;
use source_checks::DesignFile;
use std::alloc::{AllocError, Global};
use vbe_text::read_source;
use vhdl_token::Tokens;
use vlsi_base::{FaultKind, InputFault, ReadError};
use vlsi_model::{check_machine, fault};

/// Whether the check for this comes before that for forms that are left out.
fn is_earlier(kind: FaultKind) -> bool
    ensures { result ≡ is_earlier kind }
{
    match kind {
        FaultKind::Twice
        | FaultKind::Unknown
        | FaultKind::Width
        | FaultKind::TwoDrivers
        | FaultKind::Undriven => true,
        _ => false,
    }
}

/// A form that is left out, at this line.
fn unsupported(alloc: Global, line: u32) -> ReadError
    ensures { result ≡ unsupported line }
{
    fault(FaultKind::Unsupported, line, Vec::new(alloc))
}

/// A fault, or the free bit on this line that stands where none may.
fn with_form(alloc: Global, found: InputFault, line: u32) -> ReadError
    ensures { result ≡ with_form line (ReadError.Input found) }
{
    if is_earlier(found.kind) {
        return ReadError::Input(found);
    }
    let first = match found.kind {
        FaultKind::Unsupported => found.line.min(line),
        _ => line,
    };
    unsupported(alloc, first)
}

/// What is answered where a free bit stands on this line where none may, and the checks answer so.
fn form_fault(alloc: Global, checked: Result<Machine, ReadError>, line: u32) -> ReadError
    ensures { result ≡ form_fault line checked }
{
    match checked {
        Ok(_) => unsupported(alloc, line),
        Err(ReadError::Memory) => ReadError::Memory,
        Err(ReadError::Input(found)) => with_form(alloc, found, line),
        Err(ReadError::Limit(_)) => unsupported(alloc, line),
    }
}

/// The machine of a text with each free bit 0, where no line has a free bit that stands where none may.
fn placed_machine(
    alloc: Global,
    low: DesignFile,
    misplaced: Option<u32>,
) -> Result<Machine, ReadError>
    requires few { length (all_names (symbols low)) < 2 ^ 32 }
    requires short { HasShortExpressions low }
    ensures accepted { IfOk result (λ m. IsPlacedMachine low misplaced m) }
    ensures refused { IfErr result (λ e. IsPlacedRefusal low misplaced e) }
{
    let checked = check_machine(alloc, low);
    match misplaced {
        None => checked,
        Some(line) => Err(form_fault(alloc, checked, line)),
    }
}

/// What is written in tokens.
fn source_of(alloc: Global, tokens: &Tokens) -> Result<DesignFile, ReadError>
    ensures written { IfOk result (λ design. IsSource tokens.now (source_view design)) }
    ensures few { IfOk result (λ design. length (all_names (symbols design)) < 2 ^ 32) }
    ensures short { IfOk result (λ design. HasShortExpressions design) }
    ensures refused { IfErr result (λ e. IsRefusedSource tokens.now e) }
{
    read_source(alloc, tokens)
}

/// The machine of what is written with each free bit 0. Reads the tokens again, since it takes what it fills.
fn low_machine(alloc: Global, tokens: &Tokens, wrote: &DesignFile) -> Result<Machine, ReadError>
    requires { IsSource tokens.now (source_view wrote.now) }
    ensures accepted { IfOk result (λ m. IsLowOf wrote.now m) }
    ensures refused { IfErr result (λ e. IsLowRefusal wrote.now e) }
{
    let line = misplaced(alloc, wrote)?;
    let other = match source_of(alloc, tokens) {
        Ok(other) => other,
        Err(e) => return Err(e),
    };
    let zeros = filled_source(alloc, other, false)?;
    placed_machine(alloc, zeros, line)
}

/// The machines of what is written: that with each free bit 0 is this one.
fn both_machines(alloc: Global, low: Machine, wrote: DesignFile) -> Result<FreeMachine, AllocError>
    requires first { IsLowOf wrote low }
    requires few { length (all_names (symbols wrote)) < 2 ^ 32 }
    ensures { IfOk result (λ m. AreMachinesOf wrote m) }
{
    let ones = filled_source(alloc, wrote, true)?;
    let high = with_ones(alloc, &low, &ones)?;
    Ok(FreeMachine { low, high })
}

/// The machines of a text that leaves something free, of which this is written in its tokens.
fn machines(
    alloc: Global,
    bytes: &[u8],
    tokens: &Tokens,
    wrote: DesignFile,
) -> Result<FreeMachine, ReadError>
    requires cut { tokens.now ≡ with_operands (tokens_in bytes.now) }
    requires written { IsSource tokens.now (source_view wrote) }
    requires few { length (all_names (symbols wrote)) < 2 ^ 32 }
    ensures accepted { IfOk result (λ m. IsFreeVbe bytes.now m) }
    ensures refused { IfErr result (λ e. IsFreeRefusal bytes.now e) }
{
    let _ = bytes;
    let low = match low_machine(alloc, tokens, &wrote) {
        Ok(low) => low,
        Err(e) => return Err(e),
    };
    let made = both_machines(alloc, low, wrote)?;
    Ok(made)
}

/// The machines of a text that leaves something free: these are its bytes and its tokens.
pub fn read_free(alloc: Global, bytes: &[u8], read: Tokens) -> Result<FreeMachine, ReadError>
    requires { read ≡ tokens_in bytes.now }
    ensures accepted { IfOk result (λ m. IsFreeVbe bytes.now m) }
    ensures refused { IfErr result (λ e. IsFreeRefusal bytes.now e) }
{
    let tokens = with_operands(alloc, read)?;
    match source_of(alloc, &tokens) {
        Ok(wrote) => machines(alloc, bytes, &tokens, wrote),
        Err(e) => Err(e),
    }
}
