// Reading whole texts.
ghost use Rattle.std.specs.Prelude.{◌≡◌, ◌<◌, ◌∷◌, [], length, IfOk, IfErr};
ghost use Rattle.grammar_theory.specs.Tokens.{code};
ghost use Rattle.grammar_theory.specs.Outcome.{Gives, finish, list_at, with_front};
ghost use Rattle.vhdl_front.specs.EntityReading.{declared_at, another_at};
ghost use Rattle.fsm_text.specs.Written.{step_view, clock_view, machine_view};
ghost use Rattle.fsm_text.specs.FsmReading.{state_names_at, state_type_at, of_type_at, state_signals_at, processes_at, architecture_at, machine_at};
ghost use Rattle.fsm_text.specs.Short.{HasShortExpressions};
ghost use Rattle.fsm_text.specs.Texts.{IsMachine, IsRefusedMachine, StopsText};

use crate::counting::{passes_chain, too_long_chain};
use crate::file::{ClockProcess, StateFile, StateSignals, StateType, StepProcess};
use crate::processes::{clock_process, step_process};
use grammar_theory::{DEPTH, Form, Reason, Stop};
use std::alloc::{AllocError, Global};
use vbe_text::{architecture_head, repeated};
use vhdl_front::{Cursor, name_bytes, stop_error};
use vhdl_token::{Keyword, Sign, Tokens};
use vlsi_base::{Entity, NewName, NewNames, ReadError, Text};

/// A name of a declaration that begins on this line.
#[tactic(auto, unfolding(vhdl_front::specs::EntityReading::declared_at))]
fn declared(cursor: &mut Cursor, line: u32) -> Result<NewName, Stop>
    ensures { Gives (λ n. n) result cursor.new (declared_at line cursor.old) }
{
    let token = cursor.declare(line)?;
    let text = Text::from_bytes(cursor.alloc(), name_bytes(token))?;
    Ok(NewName {
        text,
        line: token.line,
    })
}

#[tactic(auto, unfolding(vhdl_front::specs::EntityReading::another_at))]
fn another(cursor: &mut Cursor, line: u32) -> Result<NewName, Stop>
    ensures { Gives (λ n. n) result cursor.new (another_at line cursor.old) }
{
    let _comma = cursor.take(Form::Sign(Sign::Comma))?;
    declared(cursor, line)
}

/// The first state, and those behind it.
fn more_states(cursor: &mut Cursor, line: u32, first: NewName) -> Result<Vec<NewName>, Stop>
    ensures { Gives (λ v. v.items) result cursor.new
        (with_front (first ∷ []) (list_at (code (Form.Sign Sign.Comma) ∷ []) (another_at line) cursor.old)) }
{
    let mut states = Vec::new(cursor.alloc());
    states.push(first)?;
    while cursor.at(Form::Sign(Sign::Comma)) {
        let next = another(cursor, line)?;
        states.push(next)?;
    }
    Ok(states)
}

/// The states of a type whose declaration begins on this line.
#[tactic(auto, unfolding(crate::specs::FsmReading::state_names_at))]
fn state_names(cursor: &mut Cursor, room: u32, line: u32) -> Result<NewNames, Stop>
    ensures { Gives (λ n. n) result cursor.new (state_names_at room line cursor.old) }
{
    let _open = cursor.open(room)?;
    let first = declared(cursor, line)?;
    let states = more_states(cursor, line, first)?;
    let _close = cursor.take(Form::Sign(Sign::RightParen))?;
    let _semicolon = cursor.take(Form::Sign(Sign::Semicolon))?;
    Ok(NewNames::new(states))
}

/// The type of the states.
#[tactic(auto, unfolding(crate::specs::FsmReading::state_type_at))]
fn state_type(cursor: &mut Cursor, room: u32) -> Result<StateType, Stop>
    ensures { Gives (λ t. t) result cursor.new (state_type_at room cursor.old) }
{
    let line = cursor.take(Form::Keyword(Keyword::Type))?.line;
    let name = declared(cursor, line)?;
    let _is = cursor.take(Form::Keyword(Keyword::Is))?;
    let states = state_names(cursor, room, line)?;
    Ok(StateType { line, name, states })
}

/// The type of the signals, to the end of their declaration.
#[tactic(auto, unfolding(crate::specs::FsmReading::of_type_at, vbe_text::specs::VbeReading::stop_at))]
fn of_type(cursor: &mut Cursor, name: &[u8]) -> Result<(), Stop>
    ensures { Gives (λ _. tt) result cursor.new (of_type_at name.now cursor.old) }
{
    let _colon = cursor.take(Form::Sign(Sign::Colon))?;
    let _name = cursor.take_spelled(name)?;
    let _semicolon = cursor.take(Form::Sign(Sign::Semicolon))?;
    Ok(())
}

/// The two signals of the type with this name.
#[tactic(auto, unfolding(crate::specs::FsmReading::state_signals_at))]
fn state_signals(cursor: &mut Cursor, type_name: &[u8]) -> Result<StateSignals, Stop>
    ensures { Gives (λ s. s) result cursor.new (state_signals_at type_name.now cursor.old) }
{
    let line = cursor.take(Form::Keyword(Keyword::Signal))?.line;
    let first = declared(cursor, line)?;
    let second = another(cursor, line)?;
    of_type(cursor, type_name)?;
    Ok(StateSignals {
        line,
        first,
        second,
    })
}

/// The two processes, from `begin` to `end`.
#[tactic(auto, unfolding(crate::specs::FsmReading::processes_at))]
fn processes(cursor: &mut Cursor, room: u32) -> Result<(StepProcess, ClockProcess), Stop>
    ensures { Gives (λ p. (step_view p.0, clock_view p.1)) result cursor.new (processes_at room cursor.old) }
{
    let _begin = cursor.take(Form::Keyword(Keyword::Begin))?;
    let step = step_process(cursor, room)?;
    let clock = clock_process(cursor, room)?;
    let _end = cursor.take(Form::Keyword(Keyword::End))?;
    Ok((step, clock))
}

/// The architecture of this entity.
#[tactic(auto, unfolding(crate::specs::FsmReading::architecture_at))]
fn architecture(cursor: &mut Cursor, room: u32, entity: Entity) -> Result<StateFile, Stop>
    ensures { Gives machine_view result cursor.new (architecture_at room entity cursor.old) }
{
    let name = architecture_head(cursor, entity.name.as_bytes())?;
    let states = state_type(cursor, room)?;
    let signals = state_signals(cursor, states.name.text.as_bytes())?;
    let (step, clock) = processes(cursor, room)?;
    repeated(cursor, name.as_bytes())?;
    Ok(StateFile {
        entity,
        states,
        signals,
        step,
        clock,
    })
}

/// An entity and its architecture, and nothing behind them.
#[tactic(auto, unfolding(crate::specs::FsmReading::machine_at))]
fn whole(cursor: &mut Cursor) -> Result<StateFile, Stop>
    ensures { Gives machine_view result cursor.new (finish (machine_at DEPTH cursor.old)) }
{
    let entity = cursor.entity(DEPTH)?;
    let file = architecture(cursor, DEPTH, entity)?;
    if !cursor.rest().is_empty() {
        return Err(cursor.refuse(Reason::Syntax));
    }
    Ok(file)
}

/// What a stop is answered by, unless an assignment before it is one too many.
fn refused(alloc: Global, tokens: &Tokens, stop: Stop) -> Result<ReadError, AllocError>
    requires { StopsText tokens.now stop }
    ensures { IfOk result (λ e. IsRefusedMachine tokens.now e) }
{
    if let Stop::Refused(refusal) = &stop {
        if passes_chain(alloc, tokens, refusal.left)? {
            return Ok(too_long_chain());
        }
    }
    Ok(stop_error(alloc, tokens.last_line, tokens.items.as_slice(), stop))
}

/// Reads the tokens of a whole state machine: an entity, its architecture, and nothing behind them. The answer is what is
/// written there, in file order, with lines counted from 1; nothing is checked but the grammar, that no name is declared
/// twice, and the limits of depth, bits, operators, and assignments of one output bit or of the next state. Else it is the
/// error of the first token with which the text goes wrong (of the end, on the last line), or `Memory`. What is answered has a
/// state, and no expression with more operators than the limit. Takes memory in proportion to the text and the bits of its
/// outputs, and time for the bits that it assigns beside.
pub fn read_machine(alloc: Global, tokens: &Tokens) -> Result<StateFile, ReadError>
    ensures accepted { IfOk result (λ file. IsMachine tokens.now (machine_view file)) }
    ensures some_state { IfOk result (λ file. 0 < length (machine_view file).states.states) }
    ensures short { IfOk result (λ file. HasShortExpressions (machine_view file)) }
    ensures refused { IfErr result (λ e. IsRefusedMachine tokens.now e) }
{
    let mut cursor = Cursor::new(alloc, tokens.items.as_slice());
    match whole(&mut cursor) {
        Ok(file) => {
            if passes_chain(alloc, tokens, 0)? {
                return Err(too_long_chain());
            }
            Ok(file)
        }
        Err(stop) => {
            let error = refused(alloc, tokens, stop)?;
            Err(error)
        }
    }
}
