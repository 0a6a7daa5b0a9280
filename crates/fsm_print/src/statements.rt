// Statements as they are written.
ghost use Rattle.std.specs.Prelude.{◌≡◌, ◌++◌, ◌<◌, OnOk, map, length};
ghost use Rattle.std.specs.List.{All};
ghost use Rattle.bool_expr.specs.Expression.{IsOver};
ghost use Rattle.bool_expr.specs.View.{view};
ghost use Rattle.fsm_machine.specs.Statements.{output, next};
ghost use Rattle.spell_theory.specs.Layout.{text_of};
ghost use Rattle.vbe_print.specs.Expressions.{expression_layout};
ghost use Rattle.fsm_code.specs.View.{assignment_view, body_view, parts_view, branches_view};
ghost use Rattle.fsm_print.specs.Layout.{bar, behind, state_text, assignment_layout, states_layout, case_head, if_layout, case_layout, part_layout, branch_layout, body_layout, parts_layout, branches_layout};
ghost use Rattle.fsm_print.specs.Pieces.{IsKnownAssignment, AreKnownStates, IsKnownBody, AreKnownParts, AreKnownBranches};

use crate::Words;
use bool_expr::Expr;
use fsm_code::{Assignment, Branches, Parts, Statements};
use std::alloc::{AllocError, Global};
use vbe_print::{Speller, spell_name};
use vlsi_base::{FileBytes, Name};

/// What statements are written with: the names of a text.
#[derive(Clone, Copy)]
pub(crate) struct Writer<'a> {
    pub(crate) alloc: Global,
    pub(crate) words: &'a Words,
}

impl Writer<'_> {
    // An expression.
    fn expression(&self, out: &mut FileBytes, e: &Expr) -> Result<(), AllocError>
        requires { IsOver (view e.now) (length self.now.words.now.vars) }
        ensures { OnOk result (out.new ≡ out.old ++ text_of (expression_layout self.now.words.now.vars (view e.now))) }
    {
        let speller = Speller {
            alloc: self.alloc,
            names: self.words.vars.as_slice(),
        };
        speller.whole(out, e)
    }

    // The name of a state.
    fn state(&self, out: &mut FileBytes, number: u32) -> Result<(), AllocError>
        requires { number < length self.now.words.now.states }
        ensures { OnOk result (out.new ≡ out.old ++ state_text self.now.words.now number) }
    {
        let states = self.words.states.as_slice();
        out.append(states[number as usize].text.as_bytes())
    }

    // States behind others, each behind a bar.
    fn further_states(&self, out: &mut FileBytes, states: &[u32]) -> Result<(), AllocError>
        requires { All (λ s. s < length self.now.words.now.states) states.now }
        ensures { OnOk result (out.new ≡ out.old ++ text_of (behind bar (map (state_text self.now.words.now) states.now))) }
    {
        for state in states {
            out.append(b" | ")?;
            self.state(out, *state)?;
        }
        Ok(())
    }

    // The states of a branch.
    fn listed(&self, out: &mut FileBytes, states: &[u32]) -> Result<(), AllocError>
        requires { AreKnownStates self.now.words.now states.now }
        ensures { OnOk result (out.new ≡ out.old ++ text_of (states_layout self.now.words.now states.now)) }
    {
        self.state(out, states[0])?;
        self.further_states(out, &states[1..])
    }

    // What a bit of an output is given.
    fn output(&self, out: &mut FileBytes, target: &Name, value: &Expr) -> Result<(), AllocError>
        requires { IsOver (view value.now) (length self.now.words.now.vars) }
        ensures { OnOk result (out.new ≡ out.old ++ text_of (assignment_layout self.now.words.now (output target.now (view value.now)))) }
    {
        spell_name(self.alloc, out, target)?;
        out.append(b" <= ")?;
        self.expression(out, value)?;
        out.append(b";\n")
    }

    // What the next state is given.
    fn next_state(&self, out: &mut FileBytes, state: u32) -> Result<(), AllocError>
        requires { state < length self.now.words.now.states }
        ensures { OnOk result (out.new ≡ out.old ++ text_of (assignment_layout self.now.words.now (next state))) }
    {
        out.append(self.words.next.as_bytes())?;
        out.append(b" <= ")?;
        self.state(out, state)?;
        out.append(b";\n")
    }

    // An assignment.
    fn assignment(&self, out: &mut FileBytes, assignment: &Assignment) -> Result<(), AllocError>
        requires { IsKnownAssignment self.now.words.now (assignment_view assignment.now) }
        ensures { OnOk result (out.new ≡ out.old ++ text_of (assignment_layout self.now.words.now (assignment_view assignment.now))) }
    {
        match assignment {
            Assignment::Output(target, value) => self.output(out, target, value),
            Assignment::Next(state) => self.next_state(out, *state),
        }
    }

    /// Statements, each on a line.
    #[cycle(body)]
    pub(crate) fn body(&self, out: &mut FileBytes, body: &Statements) -> Result<(), AllocError>
        requires { IsKnownBody self.now.words.now (body_view body.now) }
        ensures { OnOk result (out.new ≡ out.old ++ text_of (body_layout self.now.words.now (body_view body.now))) }
    {
        let mut rest = body;
        loop {
            match rest {
                Statements::Finish => return Ok(()),
                Statements::Assign(assignment, after) => {
                    self.assignment(out, assignment)?;
                    rest = after;
                }
                Statements::Choose(parts, after) => {
                    self.conditional(out, parts)?;
                    rest = after;
                }
                Statements::Select(branches, after) => {
                    self.selection(out, branches)?;
                    rest = after;
                }
            }
        }
    }

    // An `if`.
    #[cycle(body)]
    fn conditional(&self, out: &mut FileBytes, parts: &Parts) -> Result<(), AllocError>
        requires { AreKnownParts self.now.words.now (parts_view parts.now) }
        ensures { OnOk result (out.new ≡ out.old ++ text_of (if_layout self.now.words.now (parts_view parts.now))) }
    {
        out.append(b"if ")?;
        self.parts(out, parts)?;
        out.append(b"end if;\n")
    }

    // The head of a `case`.
    fn begin_case(&self, out: &mut FileBytes) -> Result<(), AllocError>
        ensures { OnOk result (out.new ≡ out.old ++ text_of (case_head self.now.words.now)) }
    {
        out.append(b"case ")?;
        out.append(self.words.current.as_bytes())?;
        out.append(b" is\n")
    }

    // A `case` over the current state.
    #[cycle(body)]
    fn selection(&self, out: &mut FileBytes, branches: &Branches) -> Result<(), AllocError>
        requires { AreKnownBranches self.now.words.now (branches_view branches.now) }
        ensures { OnOk result (out.new ≡ out.old ++ text_of (case_layout self.now.words.now (branches_view branches.now))) }
    {
        self.begin_case(out)?;
        self.branches(out, branches)?;
        out.append(b"end case;\n")
    }

    // A condition, and what is done where it is 1.
    #[cycle(body)]
    fn part(
        &self,
        out: &mut FileBytes,
        condition: &Expr,
        body: &Statements,
    ) -> Result<(), AllocError>
        requires condition { IsOver (view condition.now) (length self.now.words.now.vars) }
        requires body { IsKnownBody self.now.words.now (body_view body.now) }
        ensures { OnOk result (out.new ≡ out.old ++ text_of (part_layout self.now.words.now (view condition.now) (body_view body.now))) }
    {
        self.expression(out, condition)?;
        out.append(b" then\n")?;
        self.body(out, body)
    }

    // The parts of an `if`, from its first condition on.
    #[cycle(body)]
    fn parts(&self, out: &mut FileBytes, parts: &Parts) -> Result<(), AllocError>
        requires { AreKnownParts self.now.words.now (parts_view parts.now) }
        ensures { OnOk result (out.new ≡ out.old ++ text_of (parts_layout self.now.words.now (parts_view parts.now))) }
    {
        let mut rest = parts;
        loop {
            match rest {
                Parts::Only(condition, body) => return self.part(out, condition, body),
                Parts::Either(condition, body, last) => {
                    self.part(out, condition, body)?;
                    out.append(b"else\n")?;
                    return self.body(out, last);
                }
                Parts::Further(condition, body, more) => {
                    self.part(out, condition, body)?;
                    out.append(b"elsif ")?;
                    rest = more;
                }
            }
        }
    }

    // A branch with its states.
    #[cycle(body)]
    fn listed_branch(
        &self,
        out: &mut FileBytes,
        states: &[u32],
        body: &Statements,
    ) -> Result<(), AllocError>
        requires states { AreKnownStates self.now.words.now states.now }
        requires body { IsKnownBody self.now.words.now (body_view body.now) }
        ensures { OnOk result (out.new ≡ out.old ++ text_of (branch_layout self.now.words.now states.now (body_view body.now))) }
    {
        out.append(b"when ")?;
        self.listed(out, states)?;
        out.append(b" =>\n")?;
        self.body(out, body)
    }

    // The branches of a `case`.
    #[cycle(body)]
    fn branches(&self, out: &mut FileBytes, branches: &Branches) -> Result<(), AllocError>
        requires { AreKnownBranches self.now.words.now (branches_view branches.now) }
        ensures { OnOk result (out.new ≡ out.old ++ text_of (branches_layout self.now.words.now (branches_view branches.now))) }
    {
        let mut rest = branches;
        loop {
            match rest {
                Branches::Closed => return Ok(()),
                Branches::Others(body) => {
                    out.append(b"when others =>\n")?;
                    return self.body(out, body);
                }
                Branches::Listed(states, body, more) => {
                    self.listed_branch(out, states, body)?;
                    rest = more;
                }
            }
        }
    }
}
