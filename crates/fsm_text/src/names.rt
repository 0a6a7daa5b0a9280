// Reading names that are used, words behind which something is open, and expressions with their lines.
ghost use Rattle.std.specs.Prelude.{◌≡◌, ◌<◌, ◌∷◌, [], IfOk};
ghost use Rattle.vlsi_base.specs.Tree.{operand_of, view};
ghost use Rattle.grammar_theory.specs.Tokens.{code};
ghost use Rattle.grammar_theory.specs.Marks.{opens};
ghost use Rattle.grammar_theory.specs.Outcome.{Gives, line_here, list_at, placed_at, take_marked, with_front};
ghost use Rattle.vhdl_front.specs.Reading.{expression_at};
ghost use Rattle.fsm_text.specs.FsmReading.{used_name_at, next_name_at, listed_names_at, sensitivity_at, next_state_at, listed_states_at, kept_here, headed_at};

use crate::file::FirstToken;
use grammar_theory::{Breach, Form, Reason, Stop};
use vhdl_front::{Cursor, name_bytes};
use vhdl_token::{Keyword, PlacedToken, Sign};
use vlsi_base::{NewName, NewNames, ParsedExpr, Text};

/// A name that is used, with its line.
#[tactic(auto, unfolding(crate::specs::FsmReading::used_name_at))]
pub fn used_name(cursor: &mut Cursor) -> Result<NewName, Stop>
    ensures { Gives (λ n. n) result cursor.new (used_name_at cursor.old) }
{
    let token = cursor.take(Form::Identifier)?;
    let text = Text::from_bytes(cursor.alloc(), name_bytes(token))?;
    Ok(NewName {
        text,
        line: token.line,
    })
}

#[tactic(auto, unfolding(crate::specs::FsmReading::next_name_at))]
fn next_name(cursor: &mut Cursor) -> Result<NewName, Stop>
    ensures { Gives (λ n. n) result cursor.new (next_name_at cursor.old) }
{
    let _comma = cursor.take(Form::Sign(Sign::Comma))?;
    used_name(cursor)
}

/// The first name, and those behind commas.
fn more_names(cursor: &mut Cursor, first: NewName) -> Result<Vec<NewName>, Stop>
    ensures { Gives (λ v. v.items) result cursor.new
        (with_front (first ∷ []) (list_at (code (Form.Sign Sign.Comma) ∷ []) next_name_at cursor.old)) }
{
    let mut names = Vec::new(cursor.alloc());
    names.push(first)?;
    while cursor.at(Form::Sign(Sign::Comma)) {
        let next = next_name(cursor)?;
        names.push(next)?;
    }
    Ok(names)
}

#[tactic(auto, unfolding(crate::specs::FsmReading::listed_names_at, vhdl_front::specs::Reading::closing_at))]
fn listed_names(cursor: &mut Cursor, room: u32) -> Result<NewNames, Stop>
    ensures { Gives (λ n. n) result cursor.new (listed_names_at room cursor.old) }
{
    let _open = cursor.open(room)?;
    let first = used_name(cursor)?;
    let names = more_names(cursor, first)?;
    let _close = cursor.take(Form::Sign(Sign::RightParen))?;
    Ok(NewNames::new(names))
}

/// The names behind `process`, which may be left out.
#[tactic(auto, unfolding(crate::specs::FsmReading::sensitivity_at))]
pub fn sensitivity(cursor: &mut Cursor, room: u32) -> Result<NewNames, Stop>
    ensures { Gives (λ n. n) result cursor.new (sensitivity_at room cursor.old) }
{
    if cursor.at(Form::Sign(Sign::LeftParen)) {
        listed_names(cursor, room)
    } else {
        Ok(NewNames::new(Vec::new(cursor.alloc())))
    }
}

#[tactic(auto, unfolding(crate::specs::FsmReading::next_state_at))]
fn next_state(cursor: &mut Cursor) -> Result<NewName, Stop>
    ensures { Gives (λ n. n) result cursor.new (next_state_at cursor.old) }
{
    let _bar = cursor.take(Form::Sign(Sign::Bar))?;
    used_name(cursor)
}

/// The first state, and those behind bars.
fn more_states(cursor: &mut Cursor, first: NewName) -> Result<Vec<NewName>, Stop>
    ensures { Gives (λ v. v.items) result cursor.new
        (with_front (first ∷ []) (list_at (code (Form.Sign Sign.Bar) ∷ []) next_state_at cursor.old)) }
{
    let mut states = Vec::new(cursor.alloc());
    states.push(first)?;
    while cursor.at(Form::Sign(Sign::Bar)) {
        let next = next_state(cursor)?;
        states.push(next)?;
    }
    Ok(states)
}

/// The states of a branch.
#[tactic(auto, unfolding(crate::specs::FsmReading::listed_states_at))]
pub fn listed_states(cursor: &mut Cursor) -> Result<NewNames, Stop>
    ensures { Gives (λ n. n) result cursor.new (listed_states_at cursor.old) }
{
    let first = used_name(cursor)?;
    let states = more_states(cursor, first)?;
    Ok(NewNames::new(states))
}

/// The word of an if or a case, where so many more may be open.
#[tactic(auto, unfolding(grammar_theory::specs::Marks::step))]
pub fn enter<'a>(cursor: &mut Cursor<'a>, word: Keyword, room: u32) -> Result<&'a PlacedToken, Stop>
    ensures taken { Gives (λ t. t.now) result cursor.new (take_marked (Form.Keyword word) (λ _. opens room) cursor.old) }
    ensures fits { IfOk result (λ _. 0 < room) }
{
    let form = Form::Keyword(word);
    if room == 0 && cursor.at(form) {
        return Err(cursor.refuse(Reason::Breach(Breach::Depth)));
    }
    cursor.take(form)
}

/// The line of the next token; 0 at the end.
fn next_line(cursor: &Cursor) -> u32
    ensures { result ≡ line_here cursor.now.rest }
{
    match cursor.rest().first() {
        Some(token) => token.line,
        None => 0,
    }
}

/// An expression, with the line of its first token.
#[tactic(auto, unfolding(grammar_theory::specs::Outcome::placed_at))]
pub fn placed_expression(cursor: &mut Cursor, room: u32) -> Result<(u32, ParsedExpr), Stop>
    ensures { Gives operand_of result cursor.new (placed_at (expression_at room) cursor.old) }
{
    let line = next_line(cursor);
    let parsed = cursor.expression(room)?;
    Ok((line, parsed))
}

/// What is kept of the next token; at the end its line is 0.
fn next_token(cursor: &Cursor) -> FirstToken
    ensures { result ≡ kept_here cursor.now.rest }
{
    match cursor.rest().first() {
        Some(token) => FirstToken {
            line: token.line,
            is_name: Form::Identifier.fits(token),
        },
        None => FirstToken {
            line: 0,
            is_name: false,
        },
    }
}

/// An expression, with what is kept of its first token.
#[tactic(auto, unfolding(crate::specs::FsmReading::headed_at))]
pub fn headed_expression(cursor: &mut Cursor, room: u32) -> Result<(FirstToken, ParsedExpr), Stop>
    ensures { Gives (λ p. (p.0, view p.1)) result cursor.new (headed_at (expression_at room) cursor.old) }
{
    let first = next_token(cursor);
    let parsed = cursor.expression(room)?;
    Ok((first, parsed))
}
