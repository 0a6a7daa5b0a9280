// Statements, parts and branches one behind the other, linked from the last on.
ghost use Rattle.std.specs.Prelude.{◌≡◌, map, Some, None, IfOk};
ghost use Rattle.fsm_text.specs.Written.{statement_view, body_view, parts_view, branches_view, next, body_of, branched};
ghost use Rattle.fsm_text.specs.Pieces.{linked_last, further_of, parts_before, listed_of};
ghost use Rattle.fsm_free.specs.Pieces.{part_view, branch_view};

use fsm_text::{Body, Branches, Parts, Statement};
use std::alloc::{AllocError, Global};
use vlsi_base::{NewNames, ParsedExpr};

/// A condition, the line of its first token, and what is done where it is 1.
#[derive(Drop)]
pub struct Part {
    pub line: u32,
    pub condition: ParsedExpr,
    pub body: Body,
}

/// States, and what is done in them.
#[derive(Drop)]
pub struct Branch {
    pub states: NewNames,
    pub body: Body,
}

// A statement before others.
fn before(alloc: Global, statement: Statement, rest: Body) -> Result<Body, AllocError>
    ensures { IfOk result (λ b. body_view b ≡ next (statement_view statement) (body_view rest)) }
{
    let statement = Box::new(alloc, statement)?;
    let rest = Box::new(alloc, rest)?;
    Ok(Body::Next(statement, rest))
}

/// Statements one after another.
pub fn linked_body(alloc: Global, statements: Vec<Statement>) -> Result<Body, AllocError>
    ensures { IfOk result (λ b. body_view b ≡ body_of (map statement_view statements.items)) }
{
    let mut left = statements;
    let mut body = Body::Finish;
    while let Some(last) = left.pop() {
        body = before(alloc, last, body)?;
    }
    Ok(body)
}

/// The last part of an `if` without `else`.
pub fn last_part(alloc: Global, part: Part) -> Result<Parts, AllocError>
    ensures { IfOk result (λ made. parts_view made ≡ linked_last (part_view part) None) }
{
    let body = Box::new(alloc, part.body)?;
    Ok(Parts::Only(part.line, part.condition, body))
}

/// The last part of an `if`, and what stands behind its `else`.
pub fn last_parts(alloc: Global, part: Part, otherwise: Body) -> Result<Parts, AllocError>
    ensures { IfOk result (λ made. parts_view made ≡ linked_last (part_view part) (Some (body_view otherwise))) }
{
    let body = Box::new(alloc, part.body)?;
    let otherwise = Box::new(alloc, otherwise)?;
    Ok(Parts::Either(part.line, part.condition, body, otherwise))
}

// A part before others.
fn further(alloc: Global, part: Part, more: Parts) -> Result<Parts, AllocError>
    ensures { IfOk result (λ p. parts_view p ≡ further_of (part_view part) (parts_view more)) }
{
    let body = Box::new(alloc, part.body)?;
    let more = Box::new(alloc, more)?;
    Ok(Parts::Further(part.line, part.condition, body, more))
}

/// Parts one behind the other, before others.
pub fn linked_parts(alloc: Global, parts: Vec<Part>, last: Parts) -> Result<Parts, AllocError>
    ensures { IfOk result (λ p. parts_view p ≡ parts_before (map part_view parts.items) (parts_view last)) }
{
    let mut left = parts;
    let mut linked = last;
    while let Some(part) = left.pop() {
        linked = further(alloc, part, linked)?;
    }
    Ok(linked)
}

// A branch with listed states before others.
fn listed(alloc: Global, branch: Branch, more: Branches) -> Result<Branches, AllocError>
    ensures { IfOk result (λ b. branches_view b ≡ listed_of (branch_view branch) (branches_view more)) }
{
    let body = Box::new(alloc, branch.body)?;
    let more = Box::new(alloc, more)?;
    Ok(Branches::Listed(branch.states, body, more))
}

/// Branches one behind the other, before others.
pub fn linked_branches(
    alloc: Global,
    branches: Vec<Branch>,
    last: Branches,
) -> Result<Branches, AllocError>
    ensures { IfOk result (λ b. branches_view b ≡ branched (map branch_view branches.items) (branches_view last)) }
{
    let mut left = branches;
    let mut linked = last;
    while let Some(branch) = left.pop() {
        linked = listed(alloc, branch, linked)?;
    }
    Ok(linked)
}
