// Expressions laid out as programs, over the places of their variables.
ghost use Rattle.std.specs.Prelude.{◌≡◌, ◌<◌, ◌∷◌, [], map, length, IfOk, OnOk, All};
ghost use Rattle.bool_expr.specs.Expression.{IsOver};
ghost use Rattle.bool_expr.specs.View.{view};
ghost use Rattle.machine_core.specs.Order.{EachReadsBelow};
ghost use Rattle.machine_core.specs.View.{equation_view, register_view};
ghost use Rattle.asimut_sim.specs.Load.{LoadsOver};
ghost use Rattle.asimut_sim.specs.Operator.{StepBelow};
ghost use Rattle.asimut_sim.specs.Program.{extent, IsProgram, AreBelow, Computes, Descends, Ascends, ComputesEach};
ghost use Rattle.asimut_sim.specs.Flat.{ComputesLoads};

use crate::operator::{Step, constant_place, step_operator};
use crate::program::Program;
use bool_expr::Expr;
use machine_core::{Equation, Register};
use std::alloc::{AllocError, Global};

/// The places of what a register loads, and of whether it does.
#[derive(Clone, Copy)]
pub(crate) struct Load {
    pub(crate) next: usize,
    pub(crate) enable: usize,
}

fn ascend_one(program: &mut Program, step: Step, inner: usize) -> Result<usize, AllocError>
    requires program { IsProgram program.old }
    requires step { StepBelow (extent program.old) step }
    requires inner { inner < extent program.old }
    ensures { IfOk result (λ place. Ascends program.old program.new (step ∷ []) inner place) }
{
    let place = program.push(step_operator(step, inner))?;
    Ok(place)
}

// The steps' operators, the last one first, from the operand that it lacks.
fn ascend(program: &mut Program, steps: Vec<Step>, inner: usize) -> Result<usize, AllocError>
    requires program { IsProgram program.old }
    requires steps { All (StepBelow (extent program.old)) steps.items }
    requires inner { inner < extent program.old }
    ensures { IfOk result (λ place. Ascends program.old program.new steps.items inner place) }
{
    let mut steps = steps;
    let mut place = inner;
    while let Some(step) = steps.pop() {
        place = ascend_one(program, step, place)?;
    }
    Ok(place)
}

// Lays an expression out, and answers the place of its value.
#[cycle(lay)]
fn lay(alloc: Global, program: &mut Program, e: &Expr, vars: &[usize]) -> Result<usize, AllocError>
    requires program { IsProgram program.old }
    requires vars { AreBelow (extent program.old) vars.now }
    requires over { IsOver (view e.now) (length vars.now) }
    ensures { IfOk result (λ place. Computes program.old program.new vars.now (view e.now) place) }
{
    let (steps, inner) = descend(alloc, program, e, vars)?;
    let place = ascend(program, steps, inner)?;
    Ok(place)
}

// The steps down to the variable or constant at the end of the chain, and its place. The other operands are laid out.
#[cycle(lay)]
fn descend(
    alloc: Global,
    program: &mut Program,
    e: &Expr,
    vars: &[usize],
) -> Result<(Vec<Step>, usize), AllocError>
    requires program { IsProgram program.old }
    requires vars { AreBelow (extent program.old) vars.now }
    requires over { IsOver (view e.now) (length vars.now) }
    ensures { IfOk result (λ r. Descends program.old program.new vars.now (view e.now) r.0.items r.1) }
{
    let mut steps = Vec::new(alloc);
    let mut rest = e;
    loop {
        match rest {
            Expr::Const(bit) => return Ok((steps, constant_place(*bit))),
            Expr::Var(k) => return Ok((steps, vars[*k as usize])),
            Expr::Not(inner) => {
                steps.push(Step::Not)?;
                rest = inner;
            }
            Expr::Pair(gate, left, right) => {
                let right = lay(alloc, program, right, vars)?;
                steps.push(Step::Pair(*gate, right))?;
                rest = left;
            }
            Expr::Choice(condition, first, second) => {
                let condition = lay(alloc, program, condition, vars)?;
                let first = lay(alloc, program, first, vars)?;
                steps.push(Step::Choice(condition, first))?;
                rest = second;
            }
        }
    }
}

/// Lays the equations out in their order, and puts the place of each one's value behind those of the names before it.
pub(crate) fn lay_equations(
    alloc: Global,
    program: &mut Program,
    equations: &[Equation],
    vars: &mut Vec<usize>,
) -> Result<(), AllocError>
    requires program { IsProgram program.old }
    requires vars { AreBelow (extent program.old) vars.old.items }
    requires reads { EachReadsBelow (length vars.old.items) (map equation_view equations.now) }
    ensures { OnOk result (ComputesEach program.old program.new vars.old.items vars.new.items (map equation_view equations.now)) }
{
    for equation in equations {
        let place = lay(alloc, program, &equation.expr, vars)?;
        vars.push(place)?;
    }
    Ok(())
}

fn lay_register(
    alloc: Global,
    program: &mut Program,
    register: &Register,
    vars: &[usize],
) -> Result<Load, AllocError>
    requires program { IsProgram program.old }
    requires vars { AreBelow (extent program.old) vars.now }
    requires over { LoadsOver (length vars.now) register.now }
    ensures { IfOk result (λ load. ComputesLoads program.old program.new vars.now (load ∷ []) (register_view register.now ∷ [])) }
{
    let next = lay(alloc, program, &register.next, vars)?;
    let enable = lay(alloc, program, &register.enable, vars)?;
    Ok(Load { next, enable })
}

/// Lays out what the registers load.
pub(crate) fn lay_registers(
    alloc: Global,
    program: &mut Program,
    registers: &[Register],
    vars: &[usize],
) -> Result<Vec<Load>, AllocError>
    requires program { IsProgram program.old }
    requires vars { AreBelow (extent program.old) vars.now }
    requires over { All (LoadsOver (length vars.now)) registers.now }
    ensures { IfOk result (λ loads. ComputesLoads program.old program.new vars.now loads.items (map register_view registers.now)) }
{
    let mut loads = Vec::new(alloc);
    for register in registers {
        loads.push(lay_register(alloc, program, register, vars)?)?;
    }
    Ok(loads)
}
