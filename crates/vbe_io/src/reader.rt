// The reader.
ghost use Rattle.std.specs.Prelude.{◌≡◌, ◌<◌, ◌≤◌, ◌^◌, false, None, IfOk, IfErr, length};
ghost use Rattle.vhdl_lexer.specs.Listing.{tokens_in, refusal_in};
ghost use Rattle.source_checks.specs.Operators.{HasShortExpressions};
ghost use Rattle.source_checks.specs.Symbols.{symbols, all_names};
ghost use Rattle.vbe_io.specs.Text.{IsWritten, IsVbe, IsVbeRefusal};
ghost use Rattle.vbe_io.specs.Cell.{is_left_out};

use machine_core::Machine;
use source_checks::DesignFile;
use std::alloc::Global;
use vbe_text::read_source;
use vhdl_lexer::tokens;
use vhdl_token::Tokens;
use vlsi_base::{Limit, LimitKind, MOST_SOURCE_BYTES, ReadError};
use vlsi_model::check_machine;

// The tokens of a text that isn't too long.
fn tokens_of(alloc: Global, bytes: &[u8]) -> Result<Tokens, ReadError>
    ensures few { IfOk result (λ _. length bytes.now ≤ MOST_SOURCE_BYTES) }
    ensures cut { IfOk result (λ read. (refusal_in bytes.now ≡ None) × (read ≡ tokens_in bytes.now)) }
    ensures refused { IfErr result (λ e. IsVbeRefusal bytes.now e) }
    ensures other { IfErr result (λ e. is_left_out e ≡ false) }
{
    if bytes.len() > MOST_SOURCE_BYTES {
        return Err(ReadError::Limit(Limit {
            which: LimitKind::File,
            reached: MOST_SOURCE_BYTES as u64 + 1,
        }));
    }
    tokens(alloc, bytes)
}

// What is written in a text. No form of the language is left out here.
pub(crate) fn written(alloc: Global, bytes: &[u8]) -> Result<DesignFile, ReadError>
    ensures written { IfOk result (λ design. IsWritten bytes.now design) }
    ensures few { IfOk result (λ design. length (all_names (symbols design)) < 2 ^ 32) }
    ensures short { IfOk result (λ design. HasShortExpressions design) }
    ensures refused { IfErr result (λ e. IsVbeRefusal bytes.now e) }
    ensures other { IfErr result (λ e. is_left_out e ≡ false) }
{
    let tokens = tokens_of(alloc, bytes)?;
    read_source(alloc, &tokens)
}

/// Reads a data-flow text, and makes the machine that it describes.
///
/// It is refused, in this order: `Limit` of `File` with 1,048,577 reached, where it has more than 1,048,576 bytes; what the
/// lexer refuses; the first token that can't follow those before it (`Syntax`), that declares a name twice, or that
/// exceeds a limit; then by the checks, each but `Cycle` at its first place in the text: `Unknown`, `Width`, `TwoDrivers`,
/// `Undriven`, `Unsupported`, `ClockUse`, `Cycle`, and `Limit` of `Ports`. Memory and time grow with the bytes and with the
/// bits of what is written.
pub fn read_vbe(alloc: Global, bytes: &[u8]) -> Result<Machine, ReadError>
    ensures accepted { IfOk result (λ m. IsVbe bytes.now m) }
    ensures refused { IfErr result (λ e. IsVbeRefusal bytes.now e) }
{
    let design = written(alloc, bytes)?;
    check_machine(alloc, design)
}
