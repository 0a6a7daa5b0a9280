// State machines whose free bits are filled.
ghost use Rattle.std.specs.Prelude.{◌≡◌, ◌≤◌, false, true, length, IfOk, IfErr};
ghost use Rattle.vlsi_base.specs.declared.limits.TheConstants.{MOST_SOURCE_BYTES};
ghost use Rattle.fsm_text.specs.Written.{machine_view, body_view};
ghost use Rattle.fsm_io.specs.Verdict.{IsPassed, IsRefusedOrMemory};
ghost use Rattle.fsm_free.specs.Filled.{filled, filled_body};
ghost use Rattle.fsm_free.specs.Pieces.{AreBoth, AreFilled, MayBeChecked, IsFilledRefusal, with_body};

use crate::filling::Filler;
use crate::laws::{filled_agree, refused_alike};
use fsm_core::StateMachine;
use fsm_io::check_fsm;
use fsm_text::{Body, StateFile, read_machine};
use state_free::FreeStateMachine;
use std::alloc::{AllocError, Global};
use vhdl_token::Tokens;
use vlsi_base::{Pragma, ReadError};

/// What a text says, and its statements with each free bit 0 and with each 1.
#[derive(Drop)]
struct Filled {
    file: StateFile,
    zeros: Body,
    ones: Body,
}

// The text with these statements in place of its own.
fn with_body(file: StateFile, body: Body) -> StateFile
    ensures { machine_view result ≡ with_body (machine_view file) (body_view body) }
{
    let mut file = file;
    file.step.body = body;
    file
}

fn fill_both(alloc: Global, file: StateFile) -> Result<Filled, AllocError>
    ensures file { IfOk result (λ made. made.file ≡ file) }
    ensures zeros { IfOk result (λ made. body_view made.zeros ≡ filled_body false (machine_view file).step.body) }
    ensures ones { IfOk result (λ made. body_view made.ones ≡ filled_body true (machine_view file).step.body) }
{
    let zeros = Filler { alloc, bit: false }.body(&file.step.body)?;
    let ones = Filler { alloc, bit: true }.body(&file.step.body)?;
    Ok(Filled { file, zeros, ones })
}

fn checked(alloc: Global, file: &StateFile, pragmas: &[Pragma]) -> Result<StateMachine, ReadError>
    requires { MayBeChecked (machine_view file.now) }
    ensures machine { IfOk result (λ f. IsPassed (machine_view file.now) pragmas.now f) }
    ensures refused { IfErr result (λ e. IsRefusedOrMemory (machine_view file.now) pragmas.now e) }
{
    check_fsm(alloc, file, pragmas)
}

// The two state machines of a text, or why the one with each free bit 0 is none.
#[tactic(auto, using(crate::proofs::Both::low_refused, crate::proofs::Both::made_both))]
fn both(alloc: Global, made: Filled, pragmas: &[Pragma]) -> Result<FreeStateMachine, ReadError>
    requires checked { MayBeChecked (machine_view made.file) }
    requires zeros { body_view made.zeros ≡ filled_body false (machine_view made.file).step.body }
    requires ones { body_view made.ones ≡ filled_body true (machine_view made.file).step.body }
    ensures machines { IfOk result (λ f. AreBoth (machine_view made.file) pragmas.now f) }
    ensures refused { IfErr result (λ e. IsRefusedOrMemory (filled false (machine_view made.file)) pragmas.now e) }
{
    refused_alike();
    filled_agree();
    let file = with_body(made.file, made.zeros);
    let low = match checked(alloc, &file, pragmas) {
        Ok(low) => low,
        Err(e) => return Err(e),
    };
    let file = with_body(file, made.ones);
    match checked(alloc, &file, pragmas) {
        Ok(high) => Ok(FreeStateMachine { low, high }),
        Err(e) => Err(e),
    }
}

/// The state machines that the tokens are with each free bit 0 and with each 1, or why they are none with each 0.
#[tactic(auto, using(crate::proofs::Both::unwritten_refused, crate::proofs::Both::are_filled))]
pub fn free_machine(alloc: Global, tokens: &Tokens) -> Result<FreeStateMachine, ReadError>
    requires { length tokens.now.items ≤ MOST_SOURCE_BYTES }
    ensures machine { IfOk result (λ f. AreFilled tokens.now f) }
    ensures refused { IfErr result (λ e. IsFilledRefusal tokens.now e) }
{
    let file = match read_machine(alloc, tokens) {
        Ok(file) => file,
        Err(e) => return Err(e),
    };
    let made = fill_both(alloc, file)?;
    match both(alloc, made, tokens.pragmas.as_slice()) {
        Ok(machine) => Ok(machine),
        Err(e) => Err(e),
    }
}
