// What was made of statements, parts and branches, linked from the last on.
ghost use Rattle.std.specs.Prelude.{◌≡◌, ◌<◌, map, IfOk};
ghost use Rattle.bool_expr.specs.View.{view};
ghost use Rattle.fsm_machine.specs.Statements.{assign, output, only, either, further, listed};
ghost use Rattle.fsm_code.specs.View as code;
ghost use Rattle.fsm_text.specs.Written.{statement_view, body_view, body_of};
ghost use Rattle.fsm_io.specs.Linked.{AreSmaller, parts_before, branches_before};

use bool_expr::Expr;
use fsm_code::{Assignment, Branches, Parts, Statements};
use fsm_text::{Body, Statement};
use std::alloc::{AllocError, Global};
use vlsi_base::Name;

/// A condition, and what is done where it is 1.
#[derive(Drop)]
pub struct Part {
    pub condition: Expr,
    pub body: Statements,
}

/// The numbers of states, and what is done in them.
#[derive(Drop)]
pub struct Branch {
    pub states: Vec<u32>,
    pub body: Statements,
}

/// The statements one behind the other, each smaller than all of them together.
pub fn statements(alloc: Global, body: &Body) -> Result<Vec<&Statement>, AllocError>
    ensures whole { IfOk result (λ list. body_of (map (λ s. statement_view s.now) list.items) ≡ body_view body.now) }
    ensures smaller { IfOk result (λ list. AreSmaller body.now (map (λ s. s.now) list.items)) }
{
    let mut list = Vec::new(alloc);
    let mut rest = body;
    loop {
        match rest {
            Body::Finish => return Ok(list),
            Body::Next(statement, more) => {
                list.push(statement)?;
                rest = more;
            }
        }
    }
}

/// An assignment to a bit of an output, before others.
pub fn with_output(
    alloc: Global,
    name: Name,
    value: Expr,
    rest: Statements,
) -> Result<Statements, AllocError>
    ensures { IfOk result (λ made. code.body_view made ≡ assign (output name (view value)) (code.body_view rest)) }
{
    let after = Box::new(alloc, rest)?;
    Ok(Statements::Assign(Assignment::Output(name, value), after))
}

/// The last part of an `if` without `else`.
pub fn last_part(alloc: Global, part: Part) -> Result<Parts, AllocError>
    ensures { IfOk result (λ made. code.parts_view made ≡ only (view part.condition) (code.body_view part.body)) }
{
    let body = Box::new(alloc, part.body)?;
    Ok(Parts::Only(part.condition, body))
}

/// The last part of an `if`, and what stands behind its `else`.
pub fn last_parts(alloc: Global, part: Part, otherwise: Statements) -> Result<Parts, AllocError>
    ensures { IfOk result (λ made. code.parts_view made ≡ either (view part.condition) (code.body_view part.body) (code.body_view otherwise)) }
{
    let body = Box::new(alloc, part.body)?;
    let otherwise = Box::new(alloc, otherwise)?;
    Ok(Parts::Either(part.condition, body, otherwise))
}

/// A part before others.
fn with_part(alloc: Global, part: Part, more: Parts) -> Result<Parts, AllocError>
    ensures { IfOk result (λ made. code.parts_view made ≡ further (view part.condition) (code.body_view part.body) (code.parts_view more)) }
{
    let body = Box::new(alloc, part.body)?;
    let more = Box::new(alloc, more)?;
    Ok(Parts::Further(part.condition, body, more))
}

/// Parts one behind the other, before others.
pub fn with_parts(alloc: Global, parts: Vec<Part>, last: Parts) -> Result<Parts, AllocError>
    ensures { IfOk result (λ made. code.parts_view made ≡ parts_before parts.items (code.parts_view last)) }
{
    let mut left = parts;
    let mut linked = last;
    while let Some(part) = left.pop() {
        linked = with_part(alloc, part, linked)?;
    }
    Ok(linked)
}

/// A branch with listed states, before others.
fn with_branch(alloc: Global, branch: Branch, more: Branches) -> Result<Branches, AllocError>
    ensures { IfOk result (λ made. code.branches_view made ≡ listed branch.states.items (code.body_view branch.body) (code.branches_view more)) }
{
    let body = Box::new(alloc, branch.body)?;
    let more = Box::new(alloc, more)?;
    Ok(Branches::Listed(branch.states, body, more))
}

/// Branches one behind the other, before others.
pub fn with_branches(
    alloc: Global,
    branches: Vec<Branch>,
    last: Branches,
) -> Result<Branches, AllocError>
    ensures { IfOk result (λ made. code.branches_view made ≡ branches_before branches.items (code.branches_view last)) }
{
    let mut left = branches;
    let mut linked = last;
    while let Some(branch) = left.pop() {
        linked = with_branch(alloc, branch, linked)?;
    }
    Ok(linked)
}
