// What stands in statements, in file order.
ghost use Rattle.std.specs.Prelude.{◌≡◌, ◌++◌, ◌||◌, false, map, IfOk, OnOk};
ghost use Rattle.fsm_text.specs.Written.{statement_view, body_view, parts_view, branches_view};
ghost use Rattle.fsm_io.specs.Looks.{body_has_case, holds_case, parts_have_case, in_body, in_statement, in_parts, in_branches};
ghost use Rattle.fsm_io.specs.Pieces.{mention_of};

use fsm_text::{Body, Branches, FirstToken, Parts, Statement};
use source_checks::Target;
use std::alloc::{AllocError, Global};
use vlsi_base::{NewName, ParsedExpr};

/// What stands in one place.
#[derive(Clone, Copy)]
pub enum Mention<'a> {
    Assertion(&'a ParsedExpr),
    /// The target, the first token of what is assigned, and that.
    Assignment(&'a Target, FirstToken, &'a ParsedExpr),
    /// The line of a condition, and the condition.
    Condition(u32, &'a ParsedExpr),
    /// Whether another case stands before this one, its line, and its name.
    Case(bool, u32, &'a NewName),
    /// The states of a branch.
    States(&'a [NewName]),
}

/// Puts what stands in these statements behind what is there; whether a case stands there or stood before.
#[cycle(mentions)]
fn push_body<'a>(
    list: &mut Vec<Mention<'a>>,
    seen: bool,
    body: &'a Body,
) -> Result<bool, AllocError>
    ensures pushed { OnOk result (map mention_of list.new.items ≡ map mention_of list.old.items ++ in_body seen (body_view body.now)) }
    ensures case { IfOk result (λ after. after ≡ (seen || body_has_case (body_view body.now))) }
{
    let mut found = seen;
    let mut rest = body;
    loop {
        match rest {
            Body::Finish => return Ok(found),
            Body::Next(statement, more) => {
                found = push_statement(list, found, statement)?;
                rest = more;
            }
        }
    }
}

#[cycle(mentions)]
fn push_statement<'a>(
    list: &mut Vec<Mention<'a>>,
    seen: bool,
    statement: &'a Statement,
) -> Result<bool, AllocError>
    ensures pushed { OnOk result (map mention_of list.new.items ≡ map mention_of list.old.items ++ in_statement seen (statement_view statement.now)) }
    ensures case { IfOk result (λ after. after ≡ (seen || holds_case (statement_view statement.now))) }
{
    match statement {
        Statement::Assert(e) => {
            list.push(Mention::Assertion(e))?;
            Ok(seen)
        }
        Statement::Assign(target, first, e) => {
            list.push(Mention::Assignment(target, *first, e))?;
            Ok(seen)
        }
        Statement::If(parts) => push_parts(list, seen, parts),
        Statement::Case(line, name, branches) => {
            list.push(Mention::Case(seen, *line, name))?;
            push_branches(list, branches)?;
            Ok(true)
        }
    }
}

#[cycle(mentions)]
fn push_parts<'a>(
    list: &mut Vec<Mention<'a>>,
    seen: bool,
    parts: &'a Parts,
) -> Result<bool, AllocError>
    ensures pushed { OnOk result (map mention_of list.new.items ≡ map mention_of list.old.items ++ in_parts seen (parts_view parts.now)) }
    ensures case { IfOk result (λ after. after ≡ (seen || parts_have_case (parts_view parts.now))) }
{
    let mut found = seen;
    let mut rest = parts;
    loop {
        match rest {
            Parts::Only(line, condition, body) => {
                list.push(Mention::Condition(*line, condition))?;
                let last = push_body(list, found, body)?;
                return Ok(last);
            }
            Parts::Either(line, condition, body, other) => {
                list.push(Mention::Condition(*line, condition))?;
                let middle = push_body(list, found, body)?;
                let last = push_body(list, middle, other)?;
                return Ok(last);
            }
            Parts::Further(line, condition, body, more) => {
                list.push(Mention::Condition(*line, condition))?;
                found = push_body(list, found, body)?;
                rest = more;
            }
        }
    }
}

#[cycle(mentions)]
fn push_branches<'a>(list: &mut Vec<Mention<'a>>, branches: &'a Branches) -> Result<(), AllocError>
    ensures { OnOk result (map mention_of list.new.items ≡ map mention_of list.old.items ++ in_branches (branches_view branches.now)) }
{
    let mut rest = branches;
    loop {
        match rest {
            Branches::Closed => return Ok(()),
            Branches::Others(body) => {
                push_body(list, true, body)?;
                return Ok(());
            }
            Branches::Listed(states, body, more) => {
                list.push(Mention::States(states.as_slice()))?;
                push_body(list, true, body)?;
                rest = more;
            }
        }
    }
}

/// What stands in the statements, and whether a case is among them. Takes memory for each.
pub fn mentions(alloc: Global, body: &Body) -> Result<(Vec<Mention<'_>>, bool), AllocError>
    ensures list { IfOk result (λ made. map mention_of made.0.items ≡ in_body false (body_view body.now)) }
    ensures case { IfOk result (λ made. made.1 ≡ body_has_case (body_view body.now)) }
{
    let mut list = Vec::new(alloc);
    let has_case = push_body(&mut list, false, body)?;
    Ok((list, has_case))
}
