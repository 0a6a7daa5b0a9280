// Statements, parts and branches that were read one behind the other, linked from the last on.
ghost use Rattle.std.specs.Prelude.{◌≡◌, map, IfOk};
ghost use Rattle.std.specs.Option.{option_map};
ghost use Rattle.fsm_text.specs.Written.{statement_view, body_view, parts_view, branches_view, body_of, parts_of, branched, branches_of};
ghost use Rattle.fsm_text.specs.Pieces.{part_view, branch_view, next_of, linked_last, further_of, parts_before, listed_of};

use crate::file::{Body, Branches, Parts, Statement};
use std::alloc::{AllocError, Global};
use vlsi_base::{NewNames, ParsedExpr};

/// A condition, the line of its first token, and what is done where it is 1.
#[derive(Drop)]
pub struct Part {
    pub line: u32,
    pub condition: ParsedExpr,
    pub body: Body,
}

/// States, and what is done in them.
#[derive(Drop)]
pub struct Branch {
    pub states: NewNames,
    pub body: Body,
}

/// A statement before others.
fn next(alloc: Global, statement: Statement, rest: Body) -> Result<Body, AllocError>
    ensures { IfOk result (λ b. body_view b ≡ next_of (statement_view statement) (body_view rest)) }
{
    let statement = Box::new(alloc, statement)?;
    let rest = Box::new(alloc, rest)?;
    Ok(Body::Next(statement, rest))
}

/// Statements one after another.
pub fn linked_body(alloc: Global, statements: Vec<Statement>) -> Result<Body, AllocError>
    ensures { IfOk result (λ b. body_view b ≡ body_of (map statement_view statements.items)) }
{
    let mut left = statements;
    let mut body = Body::Finish;
    while let Some(last) = left.pop() {
        body = next(alloc, last, body)?;
    }
    Ok(body)
}

/// The last part of an if.
fn last_of(alloc: Global, part: Part, otherwise: Option<Body>) -> Result<Parts, AllocError>
    ensures { IfOk result (λ p. parts_view p ≡ linked_last (part_view part) (option_map body_view otherwise)) }
{
    let body = Box::new(alloc, part.body)?;
    match otherwise {
        None => Ok(Parts::Only(part.line, part.condition, body)),
        Some(otherwise) => {
            let otherwise = Box::new(alloc, otherwise)?;
            Ok(Parts::Either(part.line, part.condition, body, otherwise))
        }
    }
}

/// The parts of an if: the first, those behind `elsif`, and what stands behind `else`.
pub fn linked_parts(
    alloc: Global,
    first: Part,
    more: Vec<Part>,
    otherwise: Option<Body>,
) -> Result<Parts, AllocError>
    ensures { IfOk result (λ p. parts_view p ≡ parts_of (part_view first) (map part_view more.items) (option_map body_view otherwise)) }
{
    let mut left = more;
    let Some(last) = left.pop() else {
        return last_of(alloc, first, otherwise);
    };
    let parts = last_of(alloc, last, otherwise)?;
    let parts = before_parts(alloc, left, parts)?;
    further(alloc, first, parts)
}

/// A part before others.
fn further(alloc: Global, part: Part, more: Parts) -> Result<Parts, AllocError>
    ensures { IfOk result (λ p. parts_view p ≡ further_of (part_view part) (parts_view more)) }
{
    let body = Box::new(alloc, part.body)?;
    let more = Box::new(alloc, more)?;
    Ok(Parts::Further(part.line, part.condition, body, more))
}

/// Parts one behind the other, before others.
fn before_parts(alloc: Global, parts: Vec<Part>, last: Parts) -> Result<Parts, AllocError>
    ensures { IfOk result (λ p. parts_view p ≡ parts_before (map part_view parts.items) (parts_view last)) }
{
    let mut left = parts;
    let mut linked = last;
    while let Some(part) = left.pop() {
        linked = further(alloc, part, linked)?;
    }
    Ok(linked)
}

/// The branches of a case, and what is done in all states that aren't listed.
pub fn linked_branches(
    alloc: Global,
    branches: Vec<Branch>,
    otherwise: Option<Body>,
) -> Result<Branches, AllocError>
    ensures { IfOk result (λ b. branches_view b ≡ branches_of (map branch_view branches.items) (option_map body_view otherwise)) }
{
    let last = match otherwise {
        None => Branches::Closed,
        Some(body) => Branches::Others(Box::new(alloc, body)?),
    };
    before_branches(alloc, branches, last)
}

/// A branch with listed states before others.
fn listed(alloc: Global, branch: Branch, more: Branches) -> Result<Branches, AllocError>
    ensures { IfOk result (λ b. branches_view b ≡ listed_of (branch_view branch) (branches_view more)) }
{
    let body = Box::new(alloc, branch.body)?;
    let more = Box::new(alloc, more)?;
    Ok(Branches::Listed(branch.states, body, more))
}

/// Branches one behind the other, before others.
fn before_branches(
    alloc: Global,
    branches: Vec<Branch>,
    last: Branches,
) -> Result<Branches, AllocError>
    ensures { IfOk result (λ b. branches_view b ≡ branched (map branch_view branches.items) (branches_view last)) }
{
    let mut left = branches;
    let mut linked = last;
    while let Some(branch) = left.pop() {
        linked = listed(alloc, branch, linked)?;
    }
    Ok(linked)
}
