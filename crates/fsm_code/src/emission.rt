// The signals of statements.
ghost use Rattle.std.specs.Prelude.{◌≡◌, ◌<◌, ◌+◌, ◌^◌, ◌∷◌, [], true, Some, length, map, OnOk, IfOk};
ghost use Rattle.bool_expr.specs.Expression.{variable, inverse, IsOver};
ghost use Rattle.bool_expr.specs.Support.{among};
ghost use Rattle.bool_expr.specs.View.{view};
ghost use Rattle.fsm_machine.specs.Moved.{substituted};
ghost use Rattle.fsm_machine.specs.Signals.{along, any_of, emitted, emitted_parts, emitted_branches, signals, part_signals, branch_signals, without};
ghost use Rattle.fsm_machine.specs.Sound.{IsSound, ArePartsSound, AreBranchesSound};
ghost use Rattle.fsm_code.specs.View.{body_view, parts_view, branches_view};
ghost use Rattle.fsm_code.specs.Fits.{Fits, Adds};
ghost use Rattle.fsm_code.specs.Over.{IsBodyOver, ArePartsOver, AreBranchesOver, numbered_body, numbered_parts, numbered_branches};

use crate::{Branches, Parts, Place, Statements, along, any_of};
use bool_expr::{Expr, renumbered};
use std::alloc::{AllocError, Global};

/// The states of a machine, by their numbers, and their signals: that of state s is variable `first + s`. Variable k of the
/// statements stands as `numbers[k]`.
#[derive(Drop)]
pub struct StateSignals<'a> {
    pub alloc: Global,
    pub states: Vec<u32>,
    pub first: u32,
    pub numbers: &'a [u32],
}

// Whether the state is among these.
fn lists(here: &[u32], s: u32) -> bool
    ensures { result ≡ among s here.now }
{
    here.iter().any(|h| *h == s)
}

// The states that are left behind a branch.
fn left_behind(alloc: Global, at: u32, here: &[u32], left: &[u32]) -> Result<Vec<u32>, AllocError>
    requires { Fits at left.now }
    ensures items { IfOk result (λ rest. rest.items ≡ without here.now left.now) }
    ensures fits { IfOk result (λ rest. Fits at rest.items) }
{
    let mut rest = Vec::new(alloc);
    for s in left {
        if !lists(here, *s) {
            rest.push(*s)?;
        }
    }
    Ok(rest)
}

impl StateSignals<'_> {
    // Puts an `if`'s condition and the path of its part behind the signals.
    #[tactic(auto, using(crate::proofs::Numbers::renumbered_is))]
    fn emit_condition(
        &self,
        place: Place,
        condition: &Expr,
        out: &mut Vec<Expr>,
    ) -> Result<(), AllocError>
        requires { IsOver (view condition.now) (length self.now.numbers.now) }
        ensures { OnOk result (Adds out.old.items out.new.items
            (substituted (map variable self.now.numbers.now) (view condition.now) ∷ along place.path (variable place.next) ∷ [])) }
    {
        out.push(renumbered(self.alloc, condition, self.numbers)?)?;
        out.push(along(self.alloc, place.path, Expr::Var(place.next))?)?;
        Ok(())
    }

    // Puts the path where the condition is 0 behind the signals.
    fn emit_opposite(&self, place: Place, out: &mut Vec<Expr>) -> Result<(), AllocError>
        ensures { OnOk result (Adds out.old.items out.new.items (along place.path (inverse (variable place.next)) ∷ [])) }
    {
        let opposite = Expr::Not(Box::new(self.alloc, Expr::Var(place.next))?);
        out.push(along(self.alloc, place.path, opposite)?)?;
        Ok(())
    }

    // Puts the path of a branch behind the signals.
    fn emit_branch(
        &self,
        path: Option<u32>,
        states: &[u32],
        out: &mut Vec<Expr>,
    ) -> Result<(), AllocError>
        requires { Fits self.now.first states.now }
        ensures { OnOk result (Adds out.old.items out.new.items (along path (any_of (λ s. self.now.first + s) states.now) ∷ [])) }
    {
        let any = any_of(self.alloc, self.first, states)?;
        out.push(along(self.alloc, path, any)?)?;
        Ok(())
    }

    /// Puts the signals of the statements, numbered from the place's next on, behind those that are there, and gives the number
    /// behind them. Where memory fails, some of them stay.
    #[cycle(emit)]
    #[tactic(auto, using(crate::proofs::Numbers::signals_moved, crate::proofs::Numbers::parts_moved, crate::proofs::Numbers::branches_moved))]
    pub fn emit(
        &self,
        place: Place,
        body: &Statements,
        out: &mut Vec<Expr>,
    ) -> Result<u32, AllocError>
        requires fits { Fits self.now.first self.now.states.items }
        requires over { IsBodyOver (length self.now.numbers.now) (body_view body.now) }
        requires room { place.next + signals (body_view body.now) < 2 ^ 32 }
        requires sound { IsSound self.now.states.items (body_view body.now) }
        ensures next { IfOk result (λ next. next ≡ place.next + signals (body_view body.now)) }
        ensures added { OnOk result (Adds out.old.items out.new.items
            (emitted (λ s. self.now.first + s) self.now.states.items place.path place.next
            (numbered_body self.now.numbers.now (body_view body.now)))) }
    {
        let mut here = place;
        let mut rest = body;
        loop {
            match rest {
                Statements::Finish => return Ok(here.next),
                Statements::Assign(_, after) => rest = after,
                Statements::Choose(parts, after) => {
                    here.next = self.emit_parts(here, parts, out)?;
                    rest = after;
                }
                Statements::Select(branches, after) => {
                    here.next = self.emit_branches(here, &self.states, branches, out)?;
                    rest = after;
                }
            }
        }
    }

    #[cycle(emit)]
    #[tactic(auto, using(crate::proofs::Numbers::signals_moved, crate::proofs::Numbers::parts_moved, crate::proofs::Numbers::branches_moved))]
    fn emit_parts(
        &self,
        place: Place,
        parts: &Parts,
        out: &mut Vec<Expr>,
    ) -> Result<u32, AllocError>
        requires fits { Fits self.now.first self.now.states.items }
        requires over { ArePartsOver (length self.now.numbers.now) (parts_view parts.now) }
        requires room { place.next + part_signals (parts_view parts.now) < 2 ^ 32 }
        requires sound { ArePartsSound self.now.states.items (parts_view parts.now) }
        ensures next { IfOk result (λ next. next ≡ place.next + part_signals (parts_view parts.now)) }
        ensures added { OnOk result (Adds out.old.items out.new.items
            (emitted_parts (λ s. self.now.first + s) self.now.states.items place.path place.next
            (numbered_parts self.now.numbers.now (parts_view parts.now)))) }
    {
        let mut here = place;
        let mut rest = parts;
        loop {
            match rest {
                Parts::Only(condition, part) => {
                    self.emit_condition(here, condition, out)?;
                    return self.emit(Place::new(here.next + 1), part, out);
                }
                Parts::Either(condition, part, last) => {
                    self.emit_condition(here, condition, out)?;
                    let opposite = self.emit(Place::new(here.next + 1), part, out)?;
                    self.emit_opposite(here, out)?;
                    return self.emit(Place::new(opposite), last, out);
                }
                Parts::Further(condition, part, more) => {
                    self.emit_condition(here, condition, out)?;
                    let opposite = self.emit(Place::new(here.next + 1), part, out)?;
                    self.emit_opposite(here, out)?;
                    here = Place::new(opposite);
                    rest = more;
                }
            }
        }
    }

    #[cycle(emit)]
    #[tactic(auto, using(crate::proofs::Numbers::signals_moved, crate::proofs::Numbers::parts_moved, crate::proofs::Numbers::branches_moved))]
    fn emit_branches(
        &self,
        place: Place,
        left: &[u32],
        branches: &Branches,
        out: &mut Vec<Expr>,
    ) -> Result<u32, AllocError>
        requires fits { Fits self.now.first self.now.states.items }
        requires left_fits { Fits self.now.first left.now }
        requires over { AreBranchesOver (length self.now.numbers.now) (branches_view branches.now) }
        requires room { place.next + branch_signals (branches_view branches.now) < 2 ^ 32 }
        requires sound { AreBranchesSound self.now.states.items left.now (branches_view branches.now) }
        ensures next { IfOk result (λ next. next ≡ place.next + branch_signals (branches_view branches.now)) }
        ensures added { OnOk result (Adds out.old.items out.new.items (emitted_branches
            (λ s. self.now.first + s) self.now.states.items place.path place.next left.now
            (numbered_branches self.now.numbers.now (branches_view branches.now)))) }
    {
        match branches {
            Branches::Closed => Ok(place.next),
            Branches::Others(part) => {
                self.emit_branch(place.path, left, out)?;
                self.emit(Place::new(place.next), part, out)
            }
            Branches::Listed(here, part, more) => {
                self.emit_branch(place.path, here, out)?;
                let next = self.emit(Place::new(place.next), part, out)?;
                let rest = left_behind(self.alloc, self.first, here, left)?;
                let behind = Place {
                    path: place.path,
                    next,
                };
                self.emit_branches(behind, &rest, more, out)
            }
        }
    }
}
