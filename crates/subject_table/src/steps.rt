// Operators that lack an operand.
ghost use Rattle.std.specs.Prelude.{◌<◌, IfOk};
ghost use Rattle.subject_table.specs.View.{end_of};
ghost use Rattle.subject_table.specs.Grows.{IsSound, HasRoom, Adds};
ghost use Rattle.subject_table.specs.Steps.{step_value, step_size, steps_value, steps_size, IsStepBelow, AreStepsBelow};
ghost use Rattle.subject_table.specs.Makes.{Makes, IsStep, IsClimb};

use crate::Table;
use bool_expr::Gate;
use std::alloc::AllocError;

/// An operator whose first operand, or whose last one for a choice, is still to come. The others are numbers.
#[derive(Drop)]
pub(crate) enum Step {
    Not,
    Pair(Gate, u32),
    Choice(u32, u32),
}

impl Table {
    /// The number that has the value of an operator over this operand.
    pub(crate) fn step(&mut self, step: Step, a: u32) -> Result<u32, AllocError>
        requires sound { IsSound self.now }
        requires operand { a < end_of self.now }
        requires others { IsStepBelow (end_of self.now) step }
        requires room { HasRoom self.now (step_size step) }
        ensures value { IfOk result (λ r. Adds self.old self.new (step_size step) (λ v. step_value step v (v a)) r) }
        ensures made { IfOk result (λ r. Makes self.old self.new (IsStep step a) r) }
    {
        match step {
            Step::Not => self.inv(a),
            Step::Pair(gate, b) => self.pair(gate, a, b),
            Step::Choice(condition, first) => self.choice(condition, first, a),
        }
    }

    /// The number that has the value of operators one inside the other, the outermost first, over this operand.
    pub(crate) fn climb(&mut self, steps: Vec<Step>, last: u32) -> Result<u32, AllocError>
        requires sound { IsSound self.now }
        requires operand { last < end_of self.now }
        requires others { AreStepsBelow (end_of self.now) steps.items }
        requires room { HasRoom self.now (steps_size steps.items) }
        ensures value { IfOk result (λ r. Adds self.old self.new (steps_size steps.items) (λ v. steps_value steps.items v (v last)) r) }
        ensures made { IfOk result (λ r. Makes self.old self.new (IsClimb steps.items last) r) }
    {
        let mut steps = steps;
        let mut number = last;
        while let Some(step) = steps.pop() {
            number = self.step(step, number)?;
        }
        Ok(number)
    }
}
