// The statements of a state machine with a bit in place of each that it leaves free.
ghost use Rattle.std.specs.Prelude.{◌≡◌, map, IfOk};
ghost use Rattle.vlsi_base.specs.Tree.{view};
ghost use Rattle.fsm_text.specs.Written.{statement_view, body_view, parts_view, branches_view, body_of, branched};
ghost use Rattle.fsm_text.specs.Pieces.{parts_before};
ghost use Rattle.fsm_free.specs.Filled.{filled_statement, filled_body, filled_parts, filled_branches};
ghost use Rattle.fsm_free.specs.Pieces.{part_view, branch_view, filled_part};

use crate::pieces::{
    Branch, Part, last_part, last_parts, linked_body, linked_branches, linked_parts,
};
use free_tokens::{copied_value, filled_value};
use fsm_text::{Body, Branches, Parts, Statement};
use source_checks::Target;
use std::alloc::{AllocError, Global};
use vlsi_base::{NewName, NewNames, ParsedExpr};

fn copied_name(alloc: Global, name: &NewName) -> Result<NewName, AllocError>
    ensures { IfOk result (λ made. made ≡ name.now) }
{
    Ok(NewName {
        text: name.text.copy(alloc)?,
        line: name.line,
    })
}

fn copied_names(alloc: Global, names: &[NewName]) -> Result<NewNames, AllocError>
    ensures { IfOk result (λ made. made ≡ names.now) }
{
    let mut made = Vec::new(alloc);
    for name in names {
        made.push(copied_name(alloc, name)?)?;
    }
    Ok(NewNames::new(made))
}

fn copied_target(alloc: Global, target: &Target) -> Result<Target, AllocError>
    ensures { IfOk result (λ made. made ≡ target.now) }
{
    Ok(Target {
        name: target.name.copy(alloc)?,
        line: target.line,
        selection: target.selection,
    })
}

/// What copies statements with this bit in place of each that they leave free.
#[derive(Clone, Copy)]
pub struct Filler {
    pub alloc: Global,
    pub bit: bool,
}

impl Filler {
    #[cycle(fill)]
    fn statement(&self, statement: &Statement) -> Result<Statement, AllocError>
        ensures { IfOk result (λ made. statement_view made ≡ filled_statement self.now.bit (statement_view statement.now)) }
    {
        match statement {
            Statement::Assert(e) => Ok(Statement::Assert(copied_value(self.alloc, e)?)),
            Statement::Assign(target, first, e) => {
                let target = copied_target(self.alloc, target)?;
                let e = filled_value(self.alloc, e, self.bit)?;
                Ok(Statement::Assign(target, *first, e))
            }
            Statement::If(parts) => {
                let made = self.parts(parts)?;
                Ok(Statement::If(Box::new(self.alloc, made)?))
            }
            Statement::Case(line, name, branches) => {
                let made = Box::new(self.alloc, self.branches(branches)?)?;
                let name = copied_name(self.alloc, name)?;
                Ok(Statement::Case(*line, name, made))
            }
        }
    }

    // The statements one behind the other.
    #[cycle(fill)]
    fn statements(&self, body: &Body) -> Result<Vec<Statement>, AllocError>
        ensures { IfOk result (λ list. body_of (map statement_view list.items) ≡ filled_body self.now.bit (body_view body.now)) }
    {
        let mut made = Vec::new(self.alloc);
        let mut rest = body;
        loop {
            match rest {
                Body::Finish => return Ok(made),
                Body::Next(statement, more) => {
                    made.push(self.statement(statement)?)?;
                    rest = more;
                }
            }
        }
    }

    /// The statements with the bit in place of each free one. Takes memory for them.
    #[cycle(fill)]
    pub fn body(&self, body: &Body) -> Result<Body, AllocError>
        ensures { IfOk result (λ made. body_view made ≡ filled_body self.now.bit (body_view body.now)) }
    {
        let made = self.statements(body)?;
        linked_body(self.alloc, made)
    }

    // A condition and what is done where it is 1.
    #[cycle(fill)]
    fn part(&self, line: u32, condition: &ParsedExpr, body: &Body) -> Result<Part, AllocError>
        ensures { IfOk result (λ made. part_view made ≡ filled_part self.now.bit line (view condition.now) (body_view body.now)) }
    {
        let body = self.body(body)?;
        let condition = copied_value(self.alloc, condition)?;
        Ok(Part {
            line,
            condition,
            body,
        })
    }

    // The parts of an if but the last, and the last one.
    #[cycle(fill)]
    fn parts_apart(&self, parts: &Parts) -> Result<(Vec<Part>, Parts), AllocError>
        ensures { IfOk result (λ r. parts_before (map part_view r.0.items) (parts_view r.1) ≡ filled_parts self.now.bit (parts_view parts.now)) }
    {
        let mut made = Vec::new(self.alloc);
        let mut rest = parts;
        loop {
            match rest {
                Parts::Only(line, condition, body) => {
                    let part = self.part(*line, condition, body)?;
                    let last = last_part(self.alloc, part)?;
                    return Ok((made, last));
                }
                Parts::Either(line, condition, body, other) => {
                    let part = self.part(*line, condition, body)?;
                    let other = self.body(other)?;
                    let last = last_parts(self.alloc, part, other)?;
                    return Ok((made, last));
                }
                Parts::Further(line, condition, body, more) => {
                    made.push(self.part(*line, condition, body)?)?;
                    rest = more;
                }
            }
        }
    }

    #[cycle(fill)]
    fn parts(&self, parts: &Parts) -> Result<Parts, AllocError>
        ensures { IfOk result (λ made. parts_view made ≡ filled_parts self.now.bit (parts_view parts.now)) }
    {
        let (made, last) = self.parts_apart(parts)?;
        linked_parts(self.alloc, made, last)
    }

    // The branches of a case that list states, and what is behind them.
    #[cycle(fill)]
    fn branches_apart(&self, branches: &Branches) -> Result<(Vec<Branch>, Branches), AllocError>
        ensures { IfOk result (λ r. branched (map branch_view r.0.items) (branches_view r.1) ≡ filled_branches self.now.bit (branches_view branches.now)) }
    {
        let mut made = Vec::new(self.alloc);
        let mut rest = branches;
        loop {
            match rest {
                Branches::Closed => return Ok((made, Branches::Closed)),
                Branches::Others(body) => {
                    let body = Box::new(self.alloc, self.body(body)?)?;
                    return Ok((made, Branches::Others(body)));
                }
                Branches::Listed(states, body, more) => {
                    let body = self.body(body)?;
                    let states = copied_names(self.alloc, states.as_slice())?;
                    made.push(Branch { states, body })?;
                    rest = more;
                }
            }
        }
    }

    #[cycle(fill)]
    fn branches(&self, branches: &Branches) -> Result<Branches, AllocError>
        ensures { IfOk result (λ made. branches_view made ≡ filled_branches self.now.bit (branches_view branches.now)) }
    {
        let (made, last) = self.branches_apart(branches)?;
        linked_branches(self.alloc, made, last)
    }
}
