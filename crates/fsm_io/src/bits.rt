// The statements bit by bit, over the bits of the ports.
ghost use Rattle.std.specs.Prelude.{◌≡◌, ◌∷◌, map, IfOk};
ghost use Rattle.bool_expr.specs.View.{view};
ghost use Rattle.vlsi_base.specs.Tree.{view as tree};
ghost use Rattle.source_checks.specs.Formula.{numbered, formulas};
ghost use Rattle.source_checks.specs.Drivers.{target_names};
ghost use Rattle.source_bits.specs.Formulas.{first_of};
ghost use Rattle.fsm_machine.specs.Statements.{assign, output};
ghost use Rattle.fsm_code.specs.View as code;
ghost use Rattle.fsm_text.specs.Written.{statement_view, body_view, parts_view, branches_view};
ghost use Rattle.fsm_io.specs.Elaboration.{condition_of, assign_bits, assignment_bits, body_bits, statement_bits, parts_bits, branches_bits, state_number, next_number};
ghost use Rattle.fsm_io.specs.Pieces.{IsFrame, frame_view, CanBeRead, CanBeAssigned, AssignmentFits, StatementFits, BodyFits, PartsFit, BranchesFit};

use crate::known::same;
use crate::linked::{
    Branch, Part, last_part, last_parts, statements, with_branches, with_output, with_parts,
};
use crate::names::plain_name;
use crate::states::state_number;
use bool_expr::{Expr, renumbered};
use fsm_code::{Assignment, Branches as BitBranches, Parts as BitParts, Statements};
use fsm_text::{Body, Branches, Parts, Statement};
use source_bits::{Numbers, bits, target_places};
use source_checks::{SymbolTable, Target};
use std::alloc::{AllocError, Global};
use vlsi_base::{Name, NewName, ParsedExpr, Text};

/// What the statements are elaborated over: the declared bits by numbers, the names of the ports' bits, the place of each declared
/// bit among them, the states, and the name of the next state.
#[derive(Drop)]
pub struct Frame<'a> {
    pub alloc: Global,
    pub numbers: &'a Numbers,
    pub vars: &'a [Name],
    pub places: &'a [u32],
    pub states: &'a SymbolTable,
    pub next: &'a Text,
}

/// The first bit, or 0 where there is none.
fn first(bits: Vec<Expr>) -> Expr
    ensures { view result ≡ first_of (map view bits.items) }
{
    match bits.into_iter().next() {
        Some(bit) => bit,
        None => Expr::Const(false),
    }
}

impl Frame<'_> {
    /// The bits of an expression, over the ports' bits.
    fn values(&self, e: &ParsedExpr) -> Result<Vec<Expr>, AllocError>
        requires frame { IsFrame self.now }
        requires read { CanBeRead self.now (tree e.now) }
        ensures { IfOk result (λ made. map view made.items ≡ map (numbered self.now.vars.now) (formulas self.now.numbers.now (tree e.now))) }
    {
        let over_all = bits(self.alloc, self.numbers, e)?;
        let mut made = Vec::new(self.alloc);
        for value in &over_all {
            made.push(renumbered(self.alloc, value, self.places)?)?;
        }
        Ok(made)
    }

    /// The first bit of a condition.
    fn condition(&self, e: &ParsedExpr) -> Result<Expr, AllocError>
        requires frame { IsFrame self.now }
        requires read { CanBeRead self.now (tree e.now) }
        ensures { IfOk result (λ made. view made ≡ condition_of (frame_view self.now) (tree e.now)) }
    {
        let values = self.values(e)?;
        Ok(first(values))
    }

    /// The state that is assigned, by its number.
    fn state(&self, e: &ParsedExpr) -> u32
        requires { IsFrame self.now }
        ensures { result ≡ next_number (frame_view self.now).states (tree e.now) }
    {
        match plain_name(e) {
            Some(place) => state_number(self.states, place.text),
            None => 0,
        }
    }

    /// One assignment for each bit of the target, before the others.
    fn assign(
        &self,
        target: &Target,
        e: &ParsedExpr,
        rest: Statements,
    ) -> Result<Statements, AllocError>
        requires frame { IsFrame self.now }
        requires fits { CanBeAssigned self.now target.now (tree e.now) }
        ensures { IfOk result (λ made. code.body_view made ≡ assign_bits self.now.vars.now (target_names self.now.numbers.now target.now)
            (formulas self.now.numbers.now (tree e.now)) (code.body_view rest)) }
    {
        let mut places = target_places(self.alloc, self.numbers, target)?;
        let mut values = self.values(e)?;
        let mut made = rest;
        while let Some(value) = values.pop() {
            let Some(place) = places.pop() else {
                return Ok(made);
            };
            let name = self.numbers.name(self.alloc, place)?;
            made = with_output(self.alloc, name, value, made)?;
        }
        Ok(made)
    }

    /// An assignment before the others.
    fn assignment(
        &self,
        target: &Target,
        e: &ParsedExpr,
        rest: Statements,
    ) -> Result<Statements, AllocError>
        requires frame { IsFrame self.now }
        requires fits { AssignmentFits self.now target.now (tree e.now) }
        ensures { IfOk result (λ made. code.body_view made ≡ assignment_bits (frame_view self.now) target.now (tree e.now) (code.body_view rest)) }
    {
        if same(&target.name, self.next) {
            let number = self.state(e);
            let after = Box::new(self.alloc, rest)?;
            Ok(Statements::Assign(Assignment::Next(number), after))
        } else {
            self.assign(target, e, rest)
        }
    }

    /// A statement before the others.
    #[cycle(bits)]
    fn before(&self, statement: &Statement, rest: Statements) -> Result<Statements, AllocError>
        requires frame { IsFrame self.now }
        requires fits { StatementFits self.now (statement_view statement.now) }
        ensures { IfOk result (λ made. code.body_view made ≡ statement_bits (frame_view self.now) (statement_view statement.now) (code.body_view rest)) }
    {
        match statement {
            Statement::Assert(_) => Ok(rest),
            Statement::Assign(target, _, e) => self.assignment(target, e, rest),
            Statement::If(parts) => {
                let made = self.parts(parts)?;
                let made = Box::new(self.alloc, made)?;
                let after = Box::new(self.alloc, rest)?;
                Ok(Statements::Choose(made, after))
            }
            Statement::Case(_, _, branches) => {
                let made = self.branches(branches)?;
                let made = Box::new(self.alloc, made)?;
                let after = Box::new(self.alloc, rest)?;
                Ok(Statements::Select(made, after))
            }
        }
    }

    /// The numbers of these states.
    fn numbers_of(&self, names: &[NewName]) -> Result<Vec<u32>, AllocError>
        requires { IsFrame self.now }
        ensures { IfOk result (λ made. made.items ≡ map (λ n. state_number (frame_view self.now).states n.text) names.now) }
    {
        let mut made = Vec::new(self.alloc);
        for name in names {
            made.push(state_number(self.states, &name.text))?;
        }
        Ok(made)
    }

    /// The statements, from the last on.
    #[cycle(bits)]
    pub fn body(&self, body: &Body) -> Result<Statements, AllocError>
        requires frame { IsFrame self.now }
        requires fits { BodyFits self.now (body_view body.now) }
        ensures { IfOk result (λ made. code.body_view made ≡ body_bits (frame_view self.now) (body_view body.now)) }
    {
        let mut left = statements(self.alloc, body)?;
        let mut made = Statements::Finish;
        while let Some(statement) = left.pop() {
            made = self.before(statement, made)?;
        }
        Ok(made)
    }

    /// The parts of an if.
    #[cycle(bits)]
    fn parts(&self, parts: &Parts) -> Result<BitParts, AllocError>
        requires frame { IsFrame self.now }
        requires fits { PartsFit self.now (parts_view parts.now) }
        ensures { IfOk result (λ made. code.parts_view made ≡ parts_bits (frame_view self.now) (parts_view parts.now)) }
    {
        let mut made = Vec::new(self.alloc);
        let mut rest = parts;
        loop {
            match rest {
                Parts::Only(_, condition, body) => {
                    let condition = self.condition(condition)?;
                    let body = self.body(body)?;
                    let last = last_part(self.alloc, Part { condition, body })?;
                    return with_parts(self.alloc, made, last);
                }
                Parts::Either(_, condition, body, otherwise) => {
                    let condition = self.condition(condition)?;
                    let body = self.body(body)?;
                    let otherwise = self.body(otherwise)?;
                    let last = last_parts(self.alloc, Part { condition, body }, otherwise)?;
                    return with_parts(self.alloc, made, last);
                }
                Parts::Further(_, condition, body, more) => {
                    let condition = self.condition(condition)?;
                    let body = self.body(body)?;
                    made.push(Part { condition, body })?;
                    rest = more;
                }
            }
        }
    }

    /// The branches of a case.
    #[cycle(bits)]
    fn branches(&self, branches: &Branches) -> Result<BitBranches, AllocError>
        requires frame { IsFrame self.now }
        requires fits { BranchesFit self.now (branches_view branches.now) }
        ensures { IfOk result (λ made. code.branches_view made ≡ branches_bits (frame_view self.now) (branches_view branches.now)) }
    {
        let mut made = Vec::new(self.alloc);
        let mut rest = branches;
        loop {
            match rest {
                Branches::Closed => return with_branches(self.alloc, made, BitBranches::Closed),
                Branches::Others(body) => {
                    let last = self.body(body)?;
                    let last = Box::new(self.alloc, last)?;
                    return with_branches(self.alloc, made, BitBranches::Others(last));
                }
                Branches::Listed(names, body, more) => {
                    let states = self.numbers_of(names.as_slice())?;
                    let body = self.body(body)?;
                    made.push(Branch { states, body })?;
                    rest = more;
                }
            }
        }
    }
}
