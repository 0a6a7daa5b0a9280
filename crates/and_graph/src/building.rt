// A graph of expressions.

use crate::graph::{AndGraph, Signal};
use bool_expr::{Expr, Gate as Operator};
use std::alloc::{AllocError, Global};

// An operator, a name or a constant of an expression.
#[derive(Clone, Copy)]
enum Part {
    Constant(bool),
    Name(u32),
    Not,
    Pair(Operator),
    Choice,
}

// The parts of an expression, each before those of its operands, which come from left to right.
fn parts(alloc: Global, e: &Expr) -> Result<Vec<Part>, AllocError> {
    let mut parts = Vec::new(alloc);
    let mut waiting = Vec::new(alloc);
    waiting.push(e)?;
    for _ in 0..u64::MAX {
        let Some(next) = waiting.pop() else {
            break;
        };
        match next {
            Expr::Const(bit) => parts.push(Part::Constant(*bit))?,
            Expr::Var(k) => parts.push(Part::Name(*k))?,
            Expr::Not(inner) => {
                parts.push(Part::Not)?;
                waiting.push(inner)?;
            }
            Expr::Pair(operator, left, right) => {
                parts.push(Part::Pair(*operator))?;
                waiting.push(right)?;
                waiting.push(left)?;
            }
            Expr::Choice(condition, first, second) => {
                parts.push(Part::Choice)?;
                waiting.push(second)?;
                waiting.push(first)?;
                waiting.push(condition)?;
            }
        }
    }
    Ok(parts)
}

// Puts an operator's gates into the graph.
fn pair(
    graph: &mut AndGraph,
    operator: Operator,
    left: Signal,
    right: Signal,
) -> Result<Signal, AllocError> {
    match operator {
        Operator::And => graph.and(left, right),
        Operator::Or => graph.or(left, right),
        Operator::Nand => Ok(graph.and(left, right)?.inverse()),
        Operator::Nor => Ok(graph.or(left, right)?.inverse()),
        Operator::Xor => graph.xor(left, right),
        Operator::Xnor => Ok(graph.xor(left, right)?.inverse()),
    }
}

// The last one that waits; 0 where none does.
fn popped(waiting: &mut Vec<Signal>) -> Signal {
    waiting.pop().unwrap_or(Signal::ZERO)
}

/// The signal of an expression, whose names have these signals; a name past their end counts as 0. Takes memory for its gates, and
/// for as long as it runs for its parts.
pub fn signal_of(
    alloc: Global,
    graph: &mut AndGraph,
    e: &Expr,
    names: &[Signal],
) -> Result<Signal, AllocError> {
    let parts = parts(alloc, e)?;
    let mut waiting = Vec::new(alloc);
    for part in parts.iter().rev() {
        let signal = match *part {
            Part::Constant(bit) => Signal::ZERO.inverse_if(bit),
            Part::Name(k) => names.get(k as usize).copied().unwrap_or(Signal::ZERO),
            Part::Not => popped(&mut waiting).inverse(),
            Part::Pair(operator) => {
                let left = popped(&mut waiting);
                let right = popped(&mut waiting);
                pair(graph, operator, left, right)?
            }
            Part::Choice => {
                let condition = popped(&mut waiting);
                let high = popped(&mut waiting);
                let low = popped(&mut waiting);
                graph.choice(condition, high, low)?
            }
        };
        waiting.push(signal)?;
    }
    Ok(popped(&mut waiting))
}
