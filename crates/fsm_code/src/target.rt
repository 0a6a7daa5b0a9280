// What the statements leave of the output bits, and of the bits of the next code.
ghost use Rattle.std.specs.Prelude.{◌≡◌, ◌<◌, ◌+◌, ◌^◌, ◌==◌, ℕ, length, map, Some, if◌then◌else◌, MatchOption, IfOk, OnOk, slice_index_or};
ghost use Rattle.bool_expr.specs.Expression.{variable, constant};
ghost use Rattle.bool_expr.specs.View.{view};
ghost use Rattle.machine_core.specs.Checked.{AreInOrder};
ghost use Rattle.fsm_machine.specs.Moved.{moved_assignment};
ghost use Rattle.fsm_machine.specs.MachineOf.{code_given};
ghost use Rattle.fsm_machine.specs.Statements.{next};
ghost use Rattle.fsm_machine.specs.Signals.{assigned, final, final_parts, final_branches, signals, part_signals, branch_signals};
ghost use Rattle.fsm_code.specs.Over.{IsAssignmentOver, IsBodyOver, ArePartsOver, AreBranchesOver, numbered_body, numbered_parts, numbered_branches};
ghost use Rattle.fsm_code.specs.Sought.{given_at, count_of, AreInTheirOrder, Stands, IsNowhere, EachBecomes};
ghost use Rattle.fsm_code.specs.View.{assignment_view, body_view, parts_view, branches_view};

use crate::{Assignment, Branches, Codes, Parts, Place, Statements};
use bool_expr::{Expr, renumbered};
use std::alloc::{AllocError, Global};
use std::mem;
use vlsi_base::Name;

/// What is sought: output bits, which stand in the order of names, or the bits of the code of the next state.
#[derive(Clone, Copy)]
pub enum Targets<'a> {
    Outputs(&'a [Name]),
    Code(&'a Codes),
}

/// What is sought of statements whose variables stand as these numbers.
#[derive(Clone, Copy)]
pub struct Sought<'a> {
    pub alloc: Global,
    pub targets: Targets<'a>,
    pub numbers: &'a [u32],
}

/// The place of a name in a list that stands in the order of names. Takes no memory.
pub fn place_of(names: &[Name], name: &Name) -> Option<usize>
    requires { AreInOrder names.now }
    ensures { MatchOption result (IsNowhere names.now name.now) (λ k. Stands names.now k name.now) }
{
    let place = names.partition_point(|other| other.compare(name).is_lt());
    if place < names.len() && names[place].is_same(name) {
        Some(place)
    } else {
        None
    }
}

impl Sought<'_> {
    // Puts what an assignment on the path gives over the value at a place.
    fn put(
        &self,
        values: &mut [Expr],
        place: usize,
        path: Option<u32>,
        given: Expr,
    ) -> Result<(), AllocError>
        requires { place < length values.old }
        ensures { OnOk result (EachBecomes (λ k v. if k == place then assigned (Some (view given)) path v else v) values.old values.new) }
    {
        let Some(p) = path else {
            values[place] = given;
            return Ok(());
        };
        let condition = Box::new(self.alloc, Expr::Var(p))?;
        let first = Box::new(self.alloc, given)?;
        let before = mem::replace(&mut values[place], Expr::Const(false));
        let second = Box::new(self.alloc, before)?;
        values[place] = Expr::Choice(condition, first, second);
        Ok(())
    }

    // Puts the code of a state over the values, which are those of the bits of the next code.
    fn put_code(
        &self,
        values: &mut [Expr],
        path: Option<u32>,
        codes: &Codes,
        state: u32,
    ) -> Result<(), AllocError>
        requires { length values.old ≡ codes.now.width }
        ensures { OnOk result (EachBecomes (λ k v. assigned (code_given codes.now k (next state)) path v) values.old values.new) }
    {
        for k in 0..codes.width() {
            let bit = Expr::Const(codes.bit(state, k));
            self.put(values, k as usize, path, bit)?;
        }
        Ok(())
    }

    // The values behind an assignment on the path.
    #[tactic(auto, using(crate::proofs::Numbers::renumbered_is))]
    fn assign(
        &self,
        values: &mut [Expr],
        path: Option<u32>,
        assignment: &Assignment,
    ) -> Result<(), AllocError>
        requires order { AreInTheirOrder self.now.targets }
        requires count { length values.old ≡ count_of self.now.targets }
        requires over { IsAssignmentOver (length self.now.numbers.now) (assignment_view assignment.now) }
        ensures { OnOk result (EachBecomes (λ k v. assigned (given_at self.now.targets k
            (moved_assignment (map variable self.now.numbers.now) (assignment_view assignment.now))) path v) values.old values.new) }
    {
        match (self.targets, assignment) {
            (Targets::Outputs(names), Assignment::Output(target, e)) => {
                let Some(place) = place_of(names, target) else {
                    return Ok(());
                };
                let given = renumbered(self.alloc, e, self.numbers)?;
                self.put(values, place, path, given)
            }
            (Targets::Code(codes), Assignment::Next(state)) => {
                self.put_code(values, path, codes, *state)
            }
            _ => Ok(()),
        }
    }

    /// Makes of the values of what is sought, one for each, those behind the statements: expressions over their signals, which are
    /// numbered from the place's next on. Gives the number behind these. A condition of a result is the number of a path. Takes memory
    /// for what is assigned, and time for the statements. Where memory fails, some values are left that mean nothing.
    #[cycle(target)]
    #[tactic(auto, using(crate::proofs::Numbers::signals_moved, crate::proofs::Numbers::parts_moved, crate::proofs::Numbers::branches_moved))]
    pub fn run(
        &self,
        place: Place,
        body: &Statements,
        values: &mut [Expr],
    ) -> Result<u32, AllocError>
        requires order { AreInTheirOrder self.now.targets }
        requires count { length values.old ≡ count_of self.now.targets }
        requires over { IsBodyOver (length self.now.numbers.now) (body_view body.now) }
        requires room { place.next + signals (body_view body.now) < 2 ^ 32 }
        ensures next { IfOk result (λ next. next ≡ place.next + signals (body_view body.now)) }
        ensures values { OnOk result (EachBecomes (λ k v. final (given_at self.now.targets k) place.path place.next
            (numbered_body self.now.numbers.now (body_view body.now)) v) values.old values.new) }
    {
        let path = place.path;
        let mut next = place.next;
        let mut rest = body;
        loop {
            match rest {
                Statements::Finish => return Ok(next),
                Statements::Assign(assignment, after) => {
                    self.assign(values, path, assignment)?;
                    rest = after;
                }
                Statements::Choose(parts, after) => {
                    next = self.run_parts(Place { path, next }, parts, values)?;
                    rest = after;
                }
                Statements::Select(branches, after) => {
                    next = self.run_branches(Place { path, next }, branches, values)?;
                    rest = after;
                }
            }
        }
    }

    #[cycle(target)]
    #[tactic(auto, using(crate::proofs::Numbers::signals_moved, crate::proofs::Numbers::parts_moved, crate::proofs::Numbers::branches_moved))]
    fn run_parts(&self, place: Place, parts: &Parts, values: &mut [Expr]) -> Result<u32, AllocError>
        requires order { AreInTheirOrder self.now.targets }
        requires count { length values.old ≡ count_of self.now.targets }
        requires over { ArePartsOver (length self.now.numbers.now) (parts_view parts.now) }
        requires room { place.next + part_signals (parts_view parts.now) < 2 ^ 32 }
        ensures next { IfOk result (λ next. next ≡ place.next + part_signals (parts_view parts.now)) }
        ensures values { OnOk result (EachBecomes (λ k v. final_parts (given_at self.now.targets k) place.path place.next
            (numbered_parts self.now.numbers.now (parts_view parts.now)) v) values.old values.new) }
    {
        let mut here = place;
        let mut rest = parts;
        loop {
            match rest {
                Parts::Only(_, part) => return self.run(Place::new(here.next + 1), part, values),
                Parts::Either(_, part, last) => {
                    let next = self.run(Place::new(here.next + 1), part, values)?;
                    return self.run(Place::new(next), last, values);
                }
                Parts::Further(_, part, more) => {
                    let next = self.run(Place::new(here.next + 1), part, values)?;
                    here = Place::new(next);
                    rest = more;
                }
            }
        }
    }

    #[cycle(target)]
    #[tactic(auto, using(crate::proofs::Numbers::signals_moved, crate::proofs::Numbers::parts_moved, crate::proofs::Numbers::branches_moved))]
    fn run_branches(
        &self,
        place: Place,
        branches: &Branches,
        values: &mut [Expr],
    ) -> Result<u32, AllocError>
        requires order { AreInTheirOrder self.now.targets }
        requires count { length values.old ≡ count_of self.now.targets }
        requires over { AreBranchesOver (length self.now.numbers.now) (branches_view branches.now) }
        requires room { place.next + branch_signals (branches_view branches.now) < 2 ^ 32 }
        ensures next { IfOk result (λ next. next ≡ place.next + branch_signals (branches_view branches.now)) }
        ensures values { OnOk result (EachBecomes (λ k v. final_branches (given_at self.now.targets k) place.path place.next
            (numbered_branches self.now.numbers.now (branches_view branches.now)) v) values.old values.new) }
    {
        match branches {
            Branches::Closed => Ok(place.next),
            Branches::Others(part) => self.run(Place::new(place.next), part, values),
            Branches::Listed(_, part, more) => {
                let next = self.run(Place::new(place.next), part, values)?;
                let path = place.path;
                self.run_branches(Place { path, next }, more, values)
            }
        }
    }
}
