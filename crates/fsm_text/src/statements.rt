// Reading the statements of the process that takes a step.
ghost use Rattle.std.specs.Prelude.{◌≡◌, ◌<◌, ◌-◌, ◌∷◌, [], map};
ghost use Rattle.std.specs.Option.{option_map};
ghost use Rattle.grammar_theory.specs.Tokens.{code, among, is_at};
ghost use Rattle.grammar_theory.specs.Outcome.{Gives, list_at};
ghost use Rattle.vbe_text.specs.VbeReading.{report_at, severity_at};
ghost use Rattle.fsm_text.specs.Written.{statement_view, body_view, branches_view};
ghost use Rattle.fsm_text.specs.FsmReading.{assertion_at, assignment_at, part_at, further_part_at, last_part_at, conditional_at, listed_branch_at, others_branch_at, branches_at, case_statement_at, statement_at, statement_kinds, statement_list_at, inner_at, body_at};
ghost use Rattle.fsm_text.specs.Pieces.{goes_on, led_branch_at, listed_list_at, others_at, part_view, branch_view};

use crate::file::{Body, Branches, Statement};
use crate::names::{enter, headed_expression, listed_states, placed_expression, used_name};
use crate::pieces::{Branch, Part, linked_body, linked_branches, linked_parts};
use grammar_theory::{Form, Stop};
use vbe_text::target;
use vhdl_front::Cursor;
use vhdl_token::{Keyword, PlacedToken, Sign};

/// A text behind the expression of an assertion, which has no effect.
#[tactic(auto, unfolding(vbe_text::specs::VbeReading::report_at, vbe_text::specs::VbeReading::reported_at, vbe_text::specs::VbeReading::text_at))]
fn report(cursor: &mut Cursor) -> Result<(), Stop>
    ensures { Gives (λ _. tt) result cursor.new (report_at cursor.old) }
{
    if cursor.at(Form::Keyword(Keyword::Report)) {
        let _word = cursor.take(Form::Keyword(Keyword::Report))?;
        let form = if cursor.at(Form::BitText) {
            Form::BitText
        } else {
            Form::OtherText
        };
        let _text = cursor.take(form)?;
    }
    Ok(())
}

#[tactic(auto, unfolding(vbe_text::specs::VbeReading::severity_at, vbe_text::specs::VbeReading::severe_at))]
fn severity(cursor: &mut Cursor) -> Result<(), Stop>
    ensures { Gives (λ _. tt) result cursor.new (severity_at cursor.old) }
{
    if cursor.at(Form::Keyword(Keyword::Severity)) {
        let _word = cursor.take(Form::Keyword(Keyword::Severity))?;
        let _level = cursor.take(Form::Identifier)?;
    }
    Ok(())
}

#[tactic(auto, unfolding(crate::specs::FsmReading::assertion_at))]
fn assertion(cursor: &mut Cursor, room: u32) -> Result<Statement, Stop>
    ensures { Gives statement_view result cursor.new (assertion_at room cursor.old) }
{
    let _word = cursor.take(Form::Keyword(Keyword::Assert))?;
    let parsed = cursor.expression(room)?;
    report(cursor)?;
    severity(cursor)?;
    let _semicolon = cursor.take_starting(Form::Sign(Sign::Semicolon))?;
    Ok(Statement::Assert(parsed))
}

#[tactic(auto, unfolding(crate::specs::FsmReading::assignment_at))]
fn assignment(cursor: &mut Cursor, room: u32) -> Result<Statement, Stop>
    ensures { Gives statement_view result cursor.new (assignment_at room cursor.old) }
{
    let target = target(cursor, room)?;
    let _sign = cursor.take(Form::Sign(Sign::Assign))?;
    let (first, parsed) = headed_expression(cursor, room)?;
    let _semicolon = cursor.take_starting(Form::Sign(Sign::Semicolon))?;
    Ok(Statement::Assign(target, first, parsed))
}

/// What stands in an if or a case, where so many more could be open before it.
#[cycle(statements)]
fn inner(cursor: &mut Cursor, room: u32) -> Result<Body, Stop>
    requires { 0 < room }
    ensures { Gives body_view result cursor.new (inner_at room cursor.old) }
{
    body(cursor, room - 1)
}

/// A condition and what is done where it is 1.
#[cycle(statements)]
#[tactic(auto, unfolding(crate::specs::FsmReading::part_at))]
fn part(cursor: &mut Cursor, room: u32) -> Result<Part, Stop>
    requires { 0 < room }
    ensures { Gives part_view result cursor.new (part_at (room - 1) (inner_at room) cursor.old) }
{
    let (line, condition) = placed_expression(cursor, room - 1)?;
    let _then = cursor.take_starting(Form::Keyword(Keyword::Then))?;
    let body = inner(cursor, room)?;
    Ok(Part {
        line,
        condition,
        body,
    })
}

#[cycle(statements)]
#[tactic(auto, unfolding(crate::specs::FsmReading::further_part_at))]
fn further_part(cursor: &mut Cursor, room: u32) -> Result<Part, Stop>
    requires { 0 < room }
    ensures { Gives part_view result cursor.new (further_part_at (room - 1) (inner_at room) cursor.old) }
{
    let _elsif = cursor.take(Form::Keyword(Keyword::Elsif))?;
    part(cursor, room)
}

/// The parts behind `elsif`, as long as there are any.
#[cycle(statements)]
fn further_parts(cursor: &mut Cursor, room: u32) -> Result<Vec<Part>, Stop>
    requires { 0 < room }
    ensures { Gives (λ v. map part_view v.items) result cursor.new
        (list_at (code (Form.Keyword Keyword.Elsif) ∷ []) (further_part_at (room - 1) (inner_at room)) cursor.old) }
{
    let mut parts = Vec::new(cursor.alloc());
    while cursor.at(Form::Keyword(Keyword::Elsif)) {
        let next = further_part(cursor, room)?;
        parts.push(next)?;
    }
    Ok(parts)
}

/// What stands behind `else`, which may be left out.
#[cycle(statements)]
#[tactic(auto, unfolding(crate::specs::FsmReading::last_part_at, crate::specs::FsmReading::led_last_at))]
fn last_part(cursor: &mut Cursor, room: u32) -> Result<Option<Body>, Stop>
    requires { 0 < room }
    ensures { Gives (λ o. option_map body_view o) result cursor.new (last_part_at (inner_at room) cursor.old) }
{
    if cursor.at(Form::Keyword(Keyword::Else)) {
        let _else = cursor.take(Form::Keyword(Keyword::Else))?;
        let body = inner(cursor, room)?;
        Ok(Some(body))
    } else {
        Ok(None)
    }
}

#[cycle(statements)]
#[tactic(auto, unfolding(crate::specs::FsmReading::conditional_at, crate::specs::FsmReading::behind_if_at))]
fn conditional(cursor: &mut Cursor, room: u32) -> Result<Statement, Stop>
    ensures { Gives statement_view result cursor.new (conditional_at room (inner_at room) cursor.old) }
{
    let _if = enter(cursor, Keyword::If, room)?;
    let first = part(cursor, room)?;
    let more = further_parts(cursor, room)?;
    let last = last_part(cursor, room)?;
    let _end = cursor.take(Form::Keyword(Keyword::End))?;
    let _word = cursor.take(Form::Keyword(Keyword::If))?;
    let _semicolon = cursor.take(Form::Sign(Sign::Semicolon))?;
    let parts = linked_parts(cursor.alloc(), first, more, last)?;
    Ok(Statement::If(Box::new(cursor.alloc(), parts)?))
}

/// A branch behind its `when`.
#[cycle(statements)]
#[tactic(auto, unfolding(crate::specs::FsmReading::listed_branch_at))]
fn listed_branch(cursor: &mut Cursor, room: u32) -> Result<Branch, Stop>
    requires { 0 < room }
    ensures { Gives branch_view result cursor.new (listed_branch_at (inner_at room) cursor.old) }
{
    let states = listed_states(cursor)?;
    let _arrow = cursor.take(Form::Sign(Sign::Arrow))?;
    let body = inner(cursor, room)?;
    Ok(Branch { states, body })
}

/// Whether `others` stands next among these tokens.
fn begins_others(tokens: &[PlacedToken]) -> bool
    ensures { result ≡ is_at (Form.Keyword Keyword.Others) tokens.now }
{
    match tokens.first() {
        Some(next) => Form::Keyword(Keyword::Others).fits(next),
        None => false,
    }
}

/// Whether a branch with listed states stands next: a `when`, and no `others` behind it.
fn at_listed(cursor: &Cursor) -> bool
    ensures { result ≡ goes_on cursor.now.rest }
{
    match cursor.rest().split_first() {
        Some((next, rest)) => Form::Keyword(Keyword::When).fits(next) && !begins_others(rest),
        None => false,
    }
}

/// A branch with its `when`.
#[cycle(statements)]
#[tactic(auto, unfolding(crate::specs::Pieces::led_branch_at))]
fn led_branch(cursor: &mut Cursor, room: u32) -> Result<Branch, Stop>
    requires { 0 < room }
    ensures { Gives branch_view result cursor.new (led_branch_at (inner_at room) cursor.old) }
{
    let _when = cursor.take(Form::Keyword(Keyword::When))?;
    listed_branch(cursor, room)
}

/// The branches with listed states, as long as there are any.
#[cycle(statements)]
fn listed_branches(cursor: &mut Cursor, room: u32) -> Result<Vec<Branch>, Stop>
    requires { 0 < room }
    ensures { Gives (λ v. map branch_view v.items) result cursor.new (listed_list_at (inner_at room) cursor.old) }
{
    let mut branches = Vec::new(cursor.alloc());
    while at_listed(cursor) {
        let next = led_branch(cursor, room)?;
        branches.push(next)?;
    }
    Ok(branches)
}

/// What is done in all other states, which may be left out.
#[cycle(statements)]
#[tactic(auto, unfolding(crate::specs::Pieces::others_at, crate::specs::Pieces::led_others_at))]
fn others(cursor: &mut Cursor, room: u32) -> Result<Option<Body>, Stop>
    requires { 0 < room }
    ensures { Gives (λ o. option_map body_view o) result cursor.new (others_at (inner_at room) cursor.old) }
{
    if cursor.at(Form::Keyword(Keyword::When)) {
        let _when = cursor.take(Form::Keyword(Keyword::When))?;
        let _others = cursor.take(Form::Keyword(Keyword::Others))?;
        let _arrow = cursor.take(Form::Sign(Sign::Arrow))?;
        let body = inner(cursor, room)?;
        Ok(Some(body))
    } else {
        Ok(None)
    }
}

#[cycle(statements)]
fn branches(cursor: &mut Cursor, room: u32) -> Result<Branches, Stop>
    requires { 0 < room }
    ensures { Gives branches_view result cursor.new (branches_at (inner_at room) cursor.old) }
{
    let listed = listed_branches(cursor, room)?;
    let last = others(cursor, room)?;
    let branches = linked_branches(cursor.alloc(), listed, last)?;
    Ok(branches)
}

#[cycle(statements)]
#[tactic(auto, unfolding(crate::specs::FsmReading::case_statement_at, crate::specs::FsmReading::behind_case_at))]
fn case_statement(cursor: &mut Cursor, room: u32) -> Result<Statement, Stop>
    ensures { Gives statement_view result cursor.new (case_statement_at room (inner_at room) cursor.old) }
{
    let line = enter(cursor, Keyword::Case, room)?.line;
    let name = used_name(cursor)?;
    let _is = cursor.take(Form::Keyword(Keyword::Is))?;
    let branches = branches(cursor, room)?;
    let _end = cursor.take(Form::Keyword(Keyword::End))?;
    let _word = cursor.take(Form::Keyword(Keyword::Case))?;
    let _semicolon = cursor.take(Form::Sign(Sign::Semicolon))?;
    let branches = Box::new(cursor.alloc(), branches)?;
    Ok(Statement::Case(line, name, branches))
}

#[cycle(statements)]
#[tactic(auto, unfolding(crate::specs::FsmReading::statement_at))]
fn statement(cursor: &mut Cursor, room: u32) -> Result<Statement, Stop>
    ensures { Gives statement_view result cursor.new (statement_at room (inner_at room) cursor.old) }
{
    if cursor.at(Form::Keyword(Keyword::Assert)) {
        assertion(cursor, room)
    } else if cursor.at(Form::Keyword(Keyword::If)) {
        conditional(cursor, room)
    } else if cursor.at(Form::Keyword(Keyword::Case)) {
        case_statement(cursor, room)
    } else {
        assignment(cursor, room)
    }
}

/// Whether a statement may begin with the next token.
#[tactic(auto, using(crate::proofs::Whole::among_four))]
fn at_statement(cursor: &Cursor) -> bool
    ensures { result ≡ among statement_kinds cursor.now.rest }
{
    cursor.at(Form::Keyword(Keyword::Assert))
        || cursor.at(Form::Keyword(Keyword::If))
        || cursor.at(Form::Keyword(Keyword::Case))
        || cursor.at(Form::Identifier)
}

/// Statements as long as there are any.
#[cycle(statements)]
fn statement_list(cursor: &mut Cursor, room: u32) -> Result<Vec<Statement>, Stop>
    ensures { Gives (λ v. map statement_view v.items) result cursor.new (statement_list_at room (inner_at room) cursor.old) }
{
    let mut statements = Vec::new(cursor.alloc());
    while at_statement(cursor) {
        let next = statement(cursor, room)?;
        statements.push(next)?;
    }
    Ok(statements)
}

/// Statements one after another, where so many parentheses, ifs and cases more may be open.
#[cycle(statements)]
#[tactic(auto, unfolding(crate::specs::FsmReading::body_over_at))]
pub fn body(cursor: &mut Cursor, room: u32) -> Result<Body, Stop>
    ensures { Gives body_view result cursor.new (body_at room cursor.old) }
{
    let statements = statement_list(cursor, room)?;
    let body = linked_body(cursor.alloc(), statements)?;
    Ok(body)
}
