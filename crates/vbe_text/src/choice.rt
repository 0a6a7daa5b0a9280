// Reading choices.
ghost use Rattle.std.specs.Prelude.{◌≡◌, ◌∷◌, [], map, IfOk};
ghost use Rattle.vlsi_base.specs.Tree.{view, operand_of};
ghost use Rattle.grammar_theory.specs.Outcome.{Gives, line_here, list_at, placed_at};
ghost use Rattle.grammar_theory.specs.Tokens.{code};
ghost use Rattle.vhdl_front.specs.Reading.{expression_at};
ghost use Rattle.vbe_text.specs.Source.{choice_view};
ghost use Rattle.vbe_text.specs.Source.{further_view};
ghost use Rattle.vbe_text.specs.Vbe.{choice_of};
ghost use Rattle.vbe_text.specs.VbeReading.{further_at, choice_at, delay_at, value_at};

use grammar_theory::{Form, Stop};
use source_checks::{Choice, Guarded, GuardedList};
use std::alloc::{AllocError, Global};
use std::mem;
use vhdl_front::Cursor;
use vhdl_token::{Keyword, Sign};
use vlsi_base::ParsedExpr;

/// A condition, the line of its first token, and the value behind its `else`.
#[derive(Drop)]
pub struct Further {
    pub condition: ParsedExpr,
    pub line: u32,
    pub value: ParsedExpr,
}

/// The line of the next token; 0 at the end.
fn next_line(cursor: &Cursor) -> u32
    ensures { result ≡ line_here cursor.now.rest }
{
    match cursor.rest().first() {
        Some(token) => token.line,
        None => 0,
    }
}

/// An expression, with the line of its first token.
#[tactic(auto, unfolding(grammar_theory::specs::Outcome::placed_at))]
pub fn placed_expression(cursor: &mut Cursor, room: u32) -> Result<(u32, ParsedExpr), Stop>
    ensures { Gives operand_of result cursor.new (placed_at (expression_at room) cursor.old) }
{
    let line = next_line(cursor);
    let parsed = cursor.expression(room)?;
    Ok((line, parsed))
}

/// A condition and the value behind it.
#[tactic(auto, unfolding(crate::specs::VbeReading::further_at))]
fn another(cursor: &mut Cursor, room: u32) -> Result<Further, Stop>
    ensures { Gives further_view result cursor.new (further_at room cursor.old) }
{
    let _when = cursor.take_starting(Form::Keyword(Keyword::When))?;
    let (line, condition) = placed_expression(cursor, room)?;
    let _else = cursor.take_again(Form::Keyword(Keyword::Else))?;
    let value = cursor.expression(room)?;
    Ok(Further {
        condition,
        line,
        value,
    })
}

/// Conditions, each with the value behind it, as long as there are any.
fn others(cursor: &mut Cursor, room: u32) -> Result<Vec<Further>, Stop>
    ensures { Gives (λ v. map further_view v.items) result cursor.new
        (list_at (code (Form.Keyword Keyword.When) ∷ []) (further_at room) cursor.old) }
{
    let mut others = Vec::new(cursor.alloc());
    while cursor.at(Form::Keyword(Keyword::When)) {
        let next = another(cursor, room)?;
        others.push(next)?;
    }
    Ok(others)
}

/// A choice of the first value and the others: each condition belongs to the value before it.
fn joined(alloc: Global, first: ParsedExpr, others: Vec<Further>) -> Result<Choice, AllocError>
    ensures { IfOk result (λ c. choice_view c ≡ choice_of (view first) (map further_view others.items)) }
{
    let mut alternatives = Vec::new(alloc);
    let mut last = first;
    for other in others {
        let value = mem::replace(&mut last, other.value);
        alternatives.push(Guarded {
            value,
            condition: other.condition,
            line: other.line,
        })?;
    }
    Ok(Choice {
        alternatives: GuardedList::new(alternatives),
        otherwise: last,
    })
}

#[tactic(auto, unfolding(crate::specs::VbeReading::choice_at))]
fn choice(cursor: &mut Cursor, room: u32) -> Result<Choice, Stop>
    ensures { Gives choice_view result cursor.new (choice_at room cursor.old) }
{
    let first = cursor.expression(room)?;
    let others = others(cursor, room)?;
    let choice = joined(cursor.alloc(), first, others)?;
    Ok(choice)
}

/// A time, which has no effect and may be left out.
#[tactic(auto, unfolding(crate::specs::VbeReading::delay_at, crate::specs::VbeReading::delayed_at))]
fn delay(cursor: &mut Cursor) -> Result<(), Stop>
    ensures { Gives (λ _. tt) result cursor.new (delay_at cursor.old) }
{
    if cursor.at(Form::Keyword(Keyword::After)) {
        let _word = cursor.take(Form::Keyword(Keyword::After))?;
        let _time = cursor.number()?;
        let _unit = cursor.take(Form::Identifier)?;
    }
    Ok(())
}

/// What is assigned, to the end of the statement, where so many more parentheses may be open.
#[tactic(auto, unfolding(crate::specs::VbeReading::value_at))]
pub fn value(cursor: &mut Cursor, room: u32) -> Result<Choice, Stop>
    ensures { Gives choice_view result cursor.new (value_at room cursor.old) }
{
    let choice = choice(cursor, room)?;
    delay(cursor)?;
    let _semicolon = cursor.take(Form::Sign(Sign::Semicolon))?;
    Ok(choice)
}
