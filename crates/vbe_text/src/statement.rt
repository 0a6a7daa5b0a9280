// Reading assertions, assignments and blocks.
ghost use Rattle.std.specs.Prelude.{◌≡◌, map};
ghost use Rattle.vlsi_base.specs.Tree.{view, operand_of};
ghost use Rattle.grammar_theory.specs.Outcome.{Gives};
ghost use Rattle.vbe_text.specs.Source.{assignment_view, statement_view};
ghost use Rattle.vbe_text.specs.VbeReading.{report_at, severity_at, remarks_at, assertion_at, assignment_at, guarded_assignment_at, guarded_list_at, guarded_assignments_at, guard_at, repeated_at, block_at};

use crate::choice::{placed_expression, value};
use crate::targets::{target, target_behind};
use grammar_theory::{Form, Stop};
use source_checks::{Assignment, Assignments, BlockStatement, Statement};
use vhdl_front::Cursor;
use vhdl_token::{Keyword, PlacedToken, Sign};
use vlsi_base::ParsedExpr;

#[tactic(auto, unfolding(crate::specs::VbeReading::report_at, crate::specs::VbeReading::reported_at, crate::specs::VbeReading::text_at))]
fn report(cursor: &mut Cursor) -> Result<(), Stop>
    ensures { Gives (λ _. tt) result cursor.new (report_at cursor.old) }
{
    if cursor.at(Form::Keyword(Keyword::Report)) {
        let _word = cursor.take(Form::Keyword(Keyword::Report))?;
        let form = if cursor.at(Form::BitText) {
            Form::BitText
        } else {
            Form::OtherText
        };
        let _text = cursor.take(form)?;
    }
    Ok(())
}

#[tactic(auto, unfolding(crate::specs::VbeReading::severity_at, crate::specs::VbeReading::severe_at))]
fn severity(cursor: &mut Cursor) -> Result<(), Stop>
    ensures { Gives (λ _. tt) result cursor.new (severity_at cursor.old) }
{
    if cursor.at(Form::Keyword(Keyword::Severity)) {
        let _word = cursor.take(Form::Keyword(Keyword::Severity))?;
        let _level = cursor.take(Form::Identifier)?;
    }
    Ok(())
}

/// What stands behind the expression of an assertion, which has no effect.
#[tactic(auto, unfolding(crate::specs::VbeReading::remarks_at))]
fn remarks(cursor: &mut Cursor) -> Result<(), Stop>
    ensures { Gives (λ _. tt) result cursor.new (remarks_at cursor.old) }
{
    report(cursor)?;
    severity(cursor)?;
    let _semicolon = cursor.take(Form::Sign(Sign::Semicolon))?;
    Ok(())
}

/// An assertion, where so many more parentheses may be open.
#[tactic(auto, unfolding(crate::specs::VbeReading::assertion_at))]
pub fn assertion(cursor: &mut Cursor, room: u32) -> Result<Statement, Stop>
    ensures { Gives statement_view result cursor.new (assertion_at room cursor.old) }
{
    let _word = cursor.take_starting(Form::Keyword(Keyword::Assert))?;
    let parsed = cursor.expression(room)?;
    remarks(cursor)?;
    Ok(Statement::Assert(parsed))
}

/// An assignment behind the name of its target, which is this token.
#[tactic(auto, unfolding(crate::specs::VbeReading::assignment_at))]
pub fn assignment(cursor: &mut Cursor, room: u32, token: &PlacedToken) -> Result<Statement, Stop>
    ensures { Gives statement_view result cursor.new (assignment_at room token.now cursor.old) }
{
    let target = target_behind(cursor, room, token)?;
    let _sign = cursor.take_choosing(Form::Sign(Sign::Assign))?;
    let choice = value(cursor, room)?;
    Ok(Statement::Assign(Assignment { target, choice }))
}

/// An assignment of a block.
#[tactic(auto, unfolding(crate::specs::VbeReading::guarded_assignment_at))]
fn guarded_assignment(cursor: &mut Cursor, room: u32) -> Result<Assignment, Stop>
    ensures { Gives assignment_view result cursor.new (guarded_assignment_at room cursor.old) }
{
    let target = target(cursor, room)?;
    let _sign = cursor.take(Form::Sign(Sign::Assign))?;
    let _word = cursor.take_choosing(Form::Keyword(Keyword::Guarded))?;
    let choice = value(cursor, room)?;
    Ok(Assignment { target, choice })
}

fn guarded_list(cursor: &mut Cursor, room: u32) -> Result<Vec<Assignment>, Stop>
    ensures { Gives (λ v. map assignment_view v.items) result cursor.new (guarded_list_at room cursor.old) }
{
    let mut assignments = Vec::new(cursor.alloc());
    while cursor.at(Form::Identifier) {
        let next = guarded_assignment(cursor, room)?;
        assignments.push(next)?;
    }
    Ok(assignments)
}

/// The assignments of a block, from its `begin` to its `end`.
#[tactic(auto, unfolding(crate::specs::VbeReading::guarded_assignments_at))]
fn guarded_assignments(cursor: &mut Cursor, room: u32) -> Result<Assignments, Stop>
    ensures { Gives (λ a. map assignment_view a) result cursor.new (guarded_assignments_at room cursor.old) }
{
    let _begin = cursor.take(Form::Keyword(Keyword::Begin))?;
    let assignments = guarded_list(cursor, room)?;
    let _end = cursor.take(Form::Keyword(Keyword::End))?;
    Ok(Assignments::new(assignments))
}

/// A guard, with the line of its first token, behind the parenthesis.
#[tactic(auto, unfolding(crate::specs::VbeReading::guard_at, vhdl_front::specs::Reading::closing_at))]
fn guard(cursor: &mut Cursor, room: u32) -> Result<(u32, ParsedExpr), Stop>
    ensures { Gives operand_of result cursor.new (guard_at room cursor.old) }
{
    let _word = cursor.take_starting(Form::Keyword(Keyword::Block))?;
    let _open = cursor.open(room)?;
    let guard = placed_expression(cursor, room - 1)?;
    let _close = cursor.take(Form::Sign(Sign::RightParen))?;
    Ok(guard)
}

/// The name that was opened, which may be left out, and a semicolon.
#[tactic(auto, unfolding(crate::specs::VbeReading::repeated_at, crate::specs::VbeReading::named_stop_at, crate::specs::VbeReading::stop_at))]
pub fn repeated(cursor: &mut Cursor, name: &[u8]) -> Result<(), Stop>
    ensures { Gives (λ _. tt) result cursor.new (repeated_at name.now cursor.old) }
{
    if cursor.at(Form::Identifier) {
        let _name = cursor.take_spelled(name)?;
    }
    let _semicolon = cursor.take(Form::Sign(Sign::Semicolon))?;
    Ok(())
}

/// A block behind this label.
#[tactic(auto, unfolding(crate::specs::VbeReading::block_at))]
pub fn block(cursor: &mut Cursor, room: u32, label: &[u8]) -> Result<Statement, Stop>
    ensures { Gives statement_view result cursor.new (block_at room label.now cursor.old) }
{
    let (line, guard) = guard(cursor, room)?;
    let assignments = guarded_assignments(cursor, room)?;
    let _word = cursor.take(Form::Keyword(Keyword::Block))?;
    repeated(cursor, label)?;
    Ok(Statement::Block(BlockStatement {
        guard,
        line,
        assignments,
    }))
}
