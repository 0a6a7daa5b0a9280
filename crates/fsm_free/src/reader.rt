// The reader.
ghost use Rattle.std.specs.Prelude.{◌≡◌, true, false, IfOk, IfErr};
ghost use Rattle.fsm_io.specs.Text.{IsFsm, IsFsmRefusal};
ghost use Rattle.fsm_free.specs.declared.tokens.Place.TheVariants.{Before};
ghost use Rattle.fsm_free.specs.Tokens.{has_free as leaves_bits};
ghost use Rattle.fsm_free.specs.Text.{IsFreeFsm, IsSource, IsFreeRefusal, IsSourceRefusal};
ghost use Rattle.fsm_free.specs.Pieces.{AreTokens};

use crate::machine::free_machine;
use crate::tokens::{has_free, with_operands};
use fsm_core::StateMachine;
use fsm_io::check_fsm;
use fsm_text::read_machine;
use state_free::FreeStateMachine;
use std::alloc::Global;
use vhdl_lexer::tokens;
use vhdl_token::Tokens;
use vlsi_base::{Limit, LimitKind, MOST_SOURCE_BYTES, ReadError};

/// What a text is: a state machine, or one whose outputs are left free in part.
#[derive(Drop)]
pub enum FsmSource {
    Fixed(StateMachine),
    Free(FreeStateMachine),
}

// The tokens of a text that isn't too long.
#[tactic(auto, using(crate::proofs::Reading::are_tokens, crate::proofs::Reading::long_refused, crate::proofs::Reading::uncut_refused))]
fn tokens_of(alloc: Global, bytes: &[u8]) -> Result<Tokens, ReadError>
    ensures tokens { IfOk result (λ read. AreTokens bytes.now read) }
    ensures refused { IfErr result (λ e. IsSourceRefusal bytes.now e) }
{
    if bytes.len() > MOST_SOURCE_BYTES {
        return Err(ReadError::Limit(Limit {
            which: LimitKind::File,
            reached: MOST_SOURCE_BYTES as u64 + 1,
        }));
    }
    match tokens(alloc, bytes) {
        Ok(read) => Ok(read),
        Err(e) => Err(e),
    }
}

// The state machine of a text with these tokens, which leaves nothing free.
fn fixed(alloc: Global, bytes: &[u8], tokens: &Tokens) -> Result<StateMachine, ReadError>
    requires { AreTokens bytes.now tokens.now }
    ensures machine { IfOk result (λ f. IsFsm bytes.now f) }
    ensures refused { IfErr result (λ e. IsFsmRefusal bytes.now e) }
{
    let file = read_machine(alloc, tokens)?;
    check_fsm(alloc, &file, tokens.pragmas.as_slice())
}

// The state machine of a text with these tokens, which leaves bits free.
#[tactic(auto, using(crate::proofs::Few::few_tokens, crate::proofs::Reading::is_free, crate::proofs::Reading::free_refused))]
fn free(alloc: Global, bytes: &[u8], tokens: Tokens) -> Result<FreeStateMachine, ReadError>
    requires { AreTokens bytes.now tokens }
    ensures machine { IfOk result (λ f. IsFreeFsm bytes.now f) }
    ensures refused { IfErr result (λ e. IsFreeRefusal bytes.now e) }
{
    let made = with_operands(alloc, tokens)?;
    match free_machine(alloc, &made) {
        Ok(machine) => Ok(machine),
        Err(e) => Err(e),
    }
}

// What a text with these tokens is, which leaves bits free.
#[tactic(auto, using(crate::proofs::Reading::source_free, crate::proofs::Reading::refused_free))]
fn free_source(alloc: Global, bytes: &[u8], tokens: Tokens) -> Result<FsmSource, ReadError>
    requires tokens { AreTokens bytes.now tokens }
    requires free { leaves_bits false Before tokens.items ≡ true }
    ensures accepted { IfOk result (λ s. IsSource bytes.now s) }
    ensures refused { IfErr result (λ e. IsSourceRefusal bytes.now e) }
{
    match free(alloc, bytes, tokens) {
        Ok(read) => Ok(FsmSource::Free(read)),
        Err(e) => Err(e),
    }
}

// What a text with these tokens is, which leaves nothing free.
#[tactic(auto, using(crate::proofs::Reading::source_fixed, crate::proofs::Reading::refused_fixed))]
fn fixed_source(alloc: Global, bytes: &[u8], tokens: &Tokens) -> Result<FsmSource, ReadError>
    requires tokens { AreTokens bytes.now tokens.now }
    requires fixed { leaves_bits false Before tokens.now.items ≡ false }
    ensures accepted { IfOk result (λ s. IsSource bytes.now s) }
    ensures refused { IfErr result (λ e. IsSourceRefusal bytes.now e) }
{
    match fixed(alloc, bytes, tokens) {
        Ok(read) => Ok(FsmSource::Fixed(read)),
        Err(e) => Err(e),
    }
}

/// Reads the text of a state machine that may leave bits of outputs free: a statement of it may have the form `TARGET <= 'd';`.
///
/// A text that has no such bit, or isn't cut into tokens, is read as `read_fsm` of `fsm_io` reads it. Else it is refused as
/// `read_fsm` refuses it, in that order, where `'d'` is a bit like `'0'`: at the first token that can't follow those before it
/// (`Syntax`; behind `'d'` that is any but `;`, and a `'` that is no such bit's), and by the checks of the text with `'0'` in place of each
/// free bit. So one that is assigned to something else than a bit of an output is refused by `Width` or `Unsupported`. What is
/// answered is the state machine with each free bit 0, and the one with each 1. Memory and time as of `read_fsm`, where the text
/// is read twice.
pub fn read_free_fsm(alloc: Global, bytes: &[u8]) -> Result<FsmSource, ReadError>
    ensures accepted { IfOk result (λ s. IsSource bytes.now s) }
    ensures refused { IfErr result (λ e. IsSourceRefusal bytes.now e) }
{
    let tokens = tokens_of(alloc, bytes)?;
    if has_free(tokens.items.as_slice()) {
        free_source(alloc, bytes, tokens)
    } else {
        fixed_source(alloc, bytes, &tokens)
    }
}
