// Reading the two processes.
ghost use Rattle.std.specs.Prelude.{◌≡◌, None, Some};
ghost use Rattle.std.specs.Option.{option_copied};
ghost use Rattle.vlsi_base.specs.Tree.{operand_of};
ghost use Rattle.grammar_theory.specs.Outcome.{Gives};
ghost use Rattle.fsm_text.specs.Written.{step_view, clock_view};
ghost use Rattle.fsm_text.specs.FsmReading.{led_label_at, label_at, process_head_at, label_again_at, process_end_at, step_process_at, load_at, loading_at, clock_process_at};

use crate::file::{ClockProcess, StepProcess};
use crate::names::{enter, placed_expression, sensitivity, used_name};
use crate::statements::body;
use grammar_theory::{Form, Stop};
use vbe_text::repeated;
use vhdl_front::Cursor;
use vhdl_token::{Keyword, Sign};
use vlsi_base::{NewName, NewNames, Text};

#[tactic(auto, unfolding(crate::specs::FsmReading::led_label_at))]
fn led_label(cursor: &mut Cursor) -> Result<Option<Text>, Stop>
    ensures { Gives (λ o. o) result cursor.new (led_label_at cursor.old) }
{
    let name = cursor.name()?;
    let _colon = cursor.take(Form::Sign(Sign::Colon))?;
    Ok(Some(name))
}

/// The label of a process, which may be left out.
#[tactic(auto, unfolding(crate::specs::FsmReading::label_at))]
fn label(cursor: &mut Cursor) -> Result<Option<Text>, Stop>
    ensures { Gives (λ o. o) result cursor.new (label_at cursor.old) }
{
    if cursor.at(Form::Identifier) {
        led_label(cursor)
    } else {
        Ok(None)
    }
}

/// A process up to its `begin`, behind its label.
#[tactic(auto, unfolding(crate::specs::FsmReading::process_head_at))]
fn process_head(cursor: &mut Cursor, room: u32) -> Result<NewNames, Stop>
    ensures { Gives (λ n. n) result cursor.new (process_head_at room cursor.old) }
{
    let _word = cursor.take(Form::Keyword(Keyword::Process))?;
    let names = sensitivity(cursor, room)?;
    let _begin = cursor.take(Form::Keyword(Keyword::Begin))?;
    Ok(names)
}

/// The label again, which may be left out, and a semicolon.
#[tactic(auto, unfolding(crate::specs::FsmReading::label_again_at, vbe_text::specs::VbeReading::stop_at))]
fn label_again(cursor: &mut Cursor, label: Option<&Text>) -> Result<(), Stop>
    ensures { Gives (λ _. tt) result cursor.new (label_again_at (option_copied label.entry) cursor.old) }
{
    match label {
        Some(name) => repeated(cursor, name.as_bytes()),
        None => {
            let _semicolon = cursor.take(Form::Sign(Sign::Semicolon))?;
            Ok(())
        }
    }
}

/// The end of a process, behind `end`.
#[tactic(auto, unfolding(crate::specs::FsmReading::process_end_at))]
fn process_end(cursor: &mut Cursor, label: Option<&Text>) -> Result<(), Stop>
    ensures { Gives (λ _. tt) result cursor.new (process_end_at (option_copied label.entry) cursor.old) }
{
    let _word = cursor.take(Form::Keyword(Keyword::Process))?;
    label_again(cursor, label)
}

/// The process that takes a step.
#[tactic(auto, unfolding(crate::specs::FsmReading::step_process_at))]
pub fn step_process(cursor: &mut Cursor, room: u32) -> Result<StepProcess, Stop>
    ensures { Gives step_view result cursor.new (step_process_at room cursor.old) }
{
    let label = label(cursor)?;
    let sensitivity = process_head(cursor, room)?;
    let body = body(cursor, room)?;
    let end_line = cursor.take(Form::Keyword(Keyword::End))?.line;
    process_end(cursor, label.as_ref())?;
    Ok(StepProcess {
        sensitivity,
        body,
        end_line,
    })
}

/// The signal that is assigned, and the one that is assigned to it.
#[tactic(auto, unfolding(crate::specs::FsmReading::load_at))]
fn load(cursor: &mut Cursor) -> Result<(NewName, NewName), Stop>
    ensures { Gives (λ l. l) result cursor.new (load_at cursor.old) }
{
    let target = used_name(cursor)?;
    let _sign = cursor.take(Form::Sign(Sign::Assign))?;
    let value = used_name(cursor)?;
    let _semicolon = cursor.take(Form::Sign(Sign::Semicolon))?;
    Ok((target, value))
}

/// What stands behind the condition of the process at the clock.
#[tactic(auto, unfolding(crate::specs::FsmReading::loading_at))]
fn loading(cursor: &mut Cursor, label: Option<&Text>) -> Result<(NewName, NewName), Stop>
    ensures { Gives (λ l. l) result cursor.new (loading_at (option_copied label.entry) cursor.old) }
{
    let _then = cursor.take_starting(Form::Keyword(Keyword::Then))?;
    let loaded = load(cursor)?;
    let _end = cursor.take(Form::Keyword(Keyword::End))?;
    let _if = cursor.take(Form::Keyword(Keyword::If))?;
    let _semicolon = cursor.take(Form::Sign(Sign::Semicolon))?;
    let _last = cursor.take(Form::Keyword(Keyword::End))?;
    process_end(cursor, label)?;
    Ok(loaded)
}

/// The process at the clock.
#[tactic(auto, unfolding(crate::specs::FsmReading::clock_process_at))]
pub fn clock_process(cursor: &mut Cursor, room: u32) -> Result<ClockProcess, Stop>
    ensures { Gives clock_view result cursor.new (clock_process_at room cursor.old) }
{
    let label = label(cursor)?;
    let sensitivity = process_head(cursor, room)?;
    let _if = enter(cursor, Keyword::If, room)?;
    let (condition_line, condition) = placed_expression(cursor, room - 1)?;
    let (target, value) = loading(cursor, label.as_ref())?;
    Ok(ClockProcess {
        sensitivity,
        condition_line,
        condition,
        target,
        value,
    })
}
