// The reader.
ghost use Rattle.std.specs.Prelude.{◌≡◌, ◌≤◌, None, IfOk, IfErr, length};
ghost use Rattle.vhdl_lexer.specs.Listing.{tokens_in, refusal_in};
ghost use Rattle.fsm_io.specs.Text.{IsFsm, IsFsmRefusal};

use crate::check::check_fsm;
use fsm_core::StateMachine;
use fsm_text::read_machine;
use std::alloc::Global;
use vhdl_lexer::tokens;
use vhdl_token::Tokens;
use vlsi_base::{Limit, LimitKind, MOST_SOURCE_BYTES, ReadError};

// The tokens of a text that isn't too long.
fn tokens_of(alloc: Global, bytes: &[u8]) -> Result<Tokens, ReadError>
    ensures few { IfOk result (λ _. length bytes.now ≤ MOST_SOURCE_BYTES) }
    ensures cut { IfOk result (λ read. (refusal_in bytes.now ≡ None) × (read ≡ tokens_in bytes.now)) }
    ensures refused { IfErr result (λ e. IsFsmRefusal bytes.now e) }
{
    if bytes.len() > MOST_SOURCE_BYTES {
        return Err(ReadError::Limit(Limit {
            which: LimitKind::File,
            reached: MOST_SOURCE_BYTES as u64 + 1,
        }));
    }
    tokens(alloc, bytes)
}

/// Reads the text of a state machine.
///
/// It is refused, in this order: `Limit` of `File` with 1,048,577 reached, where it has more than 1,048,576 bytes; what the
/// lexer refuses; the first token that can't follow those before it (`Syntax`), that declares a name twice, or that
/// exceeds a limit; then by the checks, each at its first place in the text: `NoPragma`, `Unknown`, `Width`, `Undriven`,
/// `Unsupported`, `ClockUse`, `BadState`, `NotAssigned`, and `Limit` of `Ports` and of `States`. Memory grows with the bytes and with
/// the bits of what is written, and time with these and, for each output bit, with the statements that each state walks.
pub fn read_fsm(alloc: Global, bytes: &[u8]) -> Result<StateMachine, ReadError>
    ensures accepted { IfOk result (λ f. IsFsm bytes.now f) }
    ensures refused { IfErr result (λ e. IsFsmRefusal bytes.now e) }
{
    let tokens = tokens_of(alloc, bytes)?;
    let file = read_machine(alloc, &tokens)?;
    check_fsm(alloc, &file, tokens.pragmas.as_slice())
}
