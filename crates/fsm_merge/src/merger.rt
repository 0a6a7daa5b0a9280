// Statements with new states in place of old ones.
ghost use Rattle.std.specs.Prelude.{◌≡◌, IfOk};
ghost use Rattle.fsm_machine.specs.Statements.{finish};
ghost use Rattle.fsm_code.specs.View.{assignment_view, body_view, parts_view, branches_view};
ghost use Rattle.fsm_merge.specs.Merged.{kept_of, merged_assignment, merged, merged_parts, merged_branches};
ghost use Rattle.fsm_merge.specs.Pieces.{with_pieces, with_arms};

use crate::Numbering;
use crate::pieces::{Arm, Piece, with_arms, with_pieces};
use bool_expr::copy;
use fsm_code::{Assignment, Branches, Parts, Statements};
use std::alloc::{AllocError, Global};

/// What copies statements with new states in place of old ones.
#[derive(Clone, Copy)]
pub struct Merger<'a> {
    pub alloc: Global,
    pub numbering: Numbering<'a>,
}

impl Merger<'_> {
    // The same assignment of the new state.
    fn assignment(&self, assignment: &Assignment) -> Result<Assignment, AllocError>
        ensures { IfOk result (λ made. assignment_view made
            ≡ merged_assignment self.now.numbering.state_of.now (assignment_view assignment.now)) }
    {
        match assignment {
            Assignment::Output(name, e) => Ok(Assignment::Output(
                name.copy(self.alloc)?,
                copy(self.alloc, e)?,
            )),
            Assignment::Next(state) => Ok(Assignment::Next(self.numbering.new_state(*state))),
        }
    }

    // The new states of those that are kept.
    fn kept_of(&self, states: &[u32]) -> Result<Vec<u32>, AllocError>
        ensures { IfOk result (λ made. made.items
            ≡ kept_of self.now.numbering.state_of.now self.now.numbering.kept.now states.now) }
    {
        let mut made = Vec::new(self.alloc);
        for state in states {
            if self.numbering.keeps(*state) {
                made.push(self.numbering.new_state(*state))?;
            }
        }
        Ok(made)
    }

    // The statements, each without those behind it.
    #[cycle(merge)]
    fn pieces(&self, body: &Statements) -> Result<Vec<Piece>, AllocError>
        ensures { IfOk result (λ pieces. with_pieces pieces.items finish
            ≡ merged self.now.numbering.state_of.now self.now.numbering.kept.now (body_view body.now)) }
    {
        let mut pieces = Vec::new(self.alloc);
        let mut rest = body;
        loop {
            match rest {
                Statements::Finish => return Ok(pieces),
                Statements::Assign(assignment, after) => {
                    pieces.push(Piece::Assign(self.assignment(assignment)?))?;
                    rest = after;
                }
                Statements::Choose(parts, after) => {
                    let made = Box::new(self.alloc, self.parts(parts)?)?;
                    pieces.push(Piece::Choose(made))?;
                    rest = after;
                }
                Statements::Select(branches, after) => {
                    let made = Box::new(self.alloc, self.branches(branches)?)?;
                    pieces.push(Piece::Select(made))?;
                    rest = after;
                }
            }
        }
    }

    /// The statements with new states in place of old ones. Takes memory for them.
    #[cycle(merge)]
    pub fn body(&self, body: &Statements) -> Result<Statements, AllocError>
        ensures { IfOk result (λ made. body_view made
            ≡ merged self.now.numbering.state_of.now self.now.numbering.kept.now (body_view body.now)) }
    {
        let pieces = self.pieces(body)?;
        with_pieces(self.alloc, pieces)
    }

    // The conditions but the last, each without those behind it, and the last one.
    #[cycle(merge)]
    fn arms(&self, parts: &Parts) -> Result<(Vec<Arm>, Parts), AllocError>
        ensures { IfOk result (λ r. with_arms r.0.items (parts_view r.1)
            ≡ merged_parts self.now.numbering.state_of.now self.now.numbering.kept.now (parts_view parts.now)) }
    {
        let mut arms = Vec::new(self.alloc);
        let mut rest = parts;
        loop {
            match rest {
                Parts::Only(condition, part) => {
                    let part = Box::new(self.alloc, self.body(part)?)?;
                    return Ok((arms, Parts::Only(copy(self.alloc, condition)?, part)));
                }
                Parts::Either(condition, part, last) => {
                    let part = Box::new(self.alloc, self.body(part)?)?;
                    let last = Box::new(self.alloc, self.body(last)?)?;
                    return Ok((
                        arms,
                        Parts::Either(copy(self.alloc, condition)?, part, last),
                    ));
                }
                Parts::Further(condition, part, more) => {
                    let part = Box::new(self.alloc, self.body(part)?)?;
                    let condition = copy(self.alloc, condition)?;
                    arms.push(Arm { condition, part })?;
                    rest = more;
                }
            }
        }
    }

    #[cycle(merge)]
    fn parts(&self, parts: &Parts) -> Result<Parts, AllocError>
        ensures { IfOk result (λ made. parts_view made
            ≡ merged_parts self.now.numbering.state_of.now self.now.numbering.kept.now (parts_view parts.now)) }
    {
        let (arms, last) = self.arms(parts)?;
        with_arms(self.alloc, arms, last)
    }

    // Each branch has a state, so there are no more of them than states.
    #[cycle(merge)]
    fn branches(&self, branches: &Branches) -> Result<Branches, AllocError>
        ensures { IfOk result (λ made. branches_view made
            ≡ merged_branches self.now.numbering.state_of.now self.now.numbering.kept.now (branches_view branches.now)) }
    {
        match branches {
            Branches::Closed => Ok(Branches::Closed),
            Branches::Others(part) => {
                Ok(Branches::Others(Box::new(self.alloc, self.body(part)?)?))
            }
            Branches::Listed(states, part, more) => {
                let here = self.kept_of(states)?;
                let more = self.branches(more)?;
                if here.is_empty() {
                    return Ok(more);
                }
                let part = Box::new(self.alloc, self.body(part)?)?;
                Ok(Branches::Listed(here, part, Box::new(self.alloc, more)?))
            }
        }
    }
}
