// Copies of expressions, with the same variables or with others.
ghost use Rattle.std.specs.Prelude.{◌≡◌, length, IfOk};
ghost use Rattle.std.specs.List.{slice_index_or};
ghost use Rattle.bool_expr.specs.Expression.{IsOver};
ghost use Rattle.bool_expr.specs.Renumbering.{renumbered, renumbered_within};
ghost use Rattle.bool_expr.specs.View.{view};
ghost use Rattle.bool_expr.specs.Steps.{with_step, with_steps};

use crate::{Expr, Gate};
use std::alloc::{AllocError, Global};

/// An operator whose first operand, or whose last one for a choice, is still to come.
#[derive(Drop)]
enum Step {
    Not,
    Pair(Gate, Box<Expr>),
    Choice(Box<Expr>, Box<Expr>),
}

/// An equal expression, on this allocator.
#[tactic(auto, using(crate::proofs::OtherVariables::within_none))]
pub fn copy(alloc: Global, e: &Expr) -> Result<Expr, AllocError>
    ensures { IfOk result (λ made. view made ≡ view e.now) }
{
    walked(alloc, e, &[])
}

/// The expression with variable k replaced by `numbers[k]`, on this allocator.
#[tactic(auto, using(crate::proofs::OtherVariables::within_all))]
pub fn renumbered(alloc: Global, e: &Expr, numbers: &[u32]) -> Result<Expr, AllocError>
    requires { IsOver (view e.now) (length numbers.now) }
    ensures { IfOk result (λ made. view made ≡ renumbered numbers.now (view e.now)) }
{
    walked(alloc, e, numbers)
}

/// The expression with variable k replaced by `numbers[k]`, where that list is so long.
#[cycle(walked)]
#[tactic(auto, using(crate::proofs::Steps::with_steps_push))]
fn walked(alloc: Global, e: &Expr, numbers: &[u32]) -> Result<Expr, AllocError>
    ensures { IfOk result (λ made. view made ≡ renumbered_within numbers.now (view e.now)) }
{
    let (steps, last) = steps(alloc, e, numbers)?;
    built(alloc, steps, last)
}

/// The way down to the name or constant at the end of the chain, and that end.
#[cycle(walked)]
#[tactic(auto, using(crate::proofs::Steps::with_steps_push))]
fn steps(alloc: Global, e: &Expr, numbers: &[u32]) -> Result<(Vec<Step>, Expr), AllocError>
    ensures { IfOk result (λ r. with_steps r.0.items (view r.1) ≡ renumbered_within numbers.now (view e.now)) }
{
    let mut steps = Vec::new(alloc);
    let mut rest = e;
    loop {
        match rest {
            Expr::Const(bit) => return Ok((steps, Expr::Const(*bit))),
            Expr::Var(k) => return Ok((steps, Expr::Var(number(numbers, *k)))),
            Expr::Not(inner) => {
                steps.push(Step::Not)?;
                rest = inner;
            }
            Expr::Pair(gate, left, right) => {
                let right = Box::new(alloc, walked(alloc, right, numbers)?)?;
                steps.push(Step::Pair(*gate, right))?;
                rest = left;
            }
            Expr::Choice(condition, first, second) => {
                let condition = Box::new(alloc, walked(alloc, condition, numbers)?)?;
                let first = Box::new(alloc, walked(alloc, first, numbers)?)?;
                steps.push(Step::Choice(condition, first))?;
                rest = second;
            }
        }
    }
}

/// What stands in place of a variable.
fn number(numbers: &[u32], k: u32) -> u32
    ensures { result ≡ slice_index_or numbers.now k k }
{
    numbers.get(k as usize).copied().unwrap_or(k)
}

/// One operator over what was built.
fn with_step(alloc: Global, step: Step, inner: Expr) -> Result<Expr, AllocError>
    ensures { IfOk result (λ made. view made ≡ with_step step (view inner)) }
{
    let inner = Box::new(alloc, inner)?;
    match step {
        Step::Not => Ok(Expr::Not(inner)),
        Step::Pair(gate, right) => Ok(Expr::Pair(gate, inner, right)),
        Step::Choice(condition, first) => Ok(Expr::Choice(condition, first, inner)),
    }
}

/// The expression at the top of the way.
#[tactic(auto, using(crate::proofs::Steps::with_steps_push))]
fn built(alloc: Global, steps: Vec<Step>, last: Expr) -> Result<Expr, AllocError>
    ensures { IfOk result (λ made. view made ≡ with_steps steps.items (view last)) }
{
    let mut steps = steps;
    let mut made = last;
    while let Some(step) = steps.pop() {
        made = with_step(alloc, step, made)?;
    }
    Ok(made)
}
