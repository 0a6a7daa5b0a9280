// A walk through an expression's expansion, without the expansion.
ghost use Rattle.std.specs.Prelude.{◌≡◌, ◌<◌, ◌^◌, ◌++◌, length, IfOk, OnOk};
ghost use Rattle.bool_expr.specs.Expression.{IsOver};
ghost use Rattle.bool_expr.specs.View.{view};
ghost use Rattle.machine_walk.specs.Walk.{order_of, AreMet};
ghost use Rattle.machine_walk.specs.Turn.{views, operands, IsMeeting};

use bool_expr::Expr;
use machine_core::Machine;
use std::alloc::{AllocError, Global};

/// What an expression's expansion reads.
#[derive(Drop)]
pub struct WalkedNames {
    /// The inputs and registers, in the order in which a walk from left to right first meets them.
    pub order: Vec<u32>,
    /// Of each name of the machine, whether the walk meets it.
    pub met: Vec<bool>,
}

// Puts the operands of an operator behind those that wait, the first at the end.
fn open<'a>(operator: &'a Expr, waiting: &mut Vec<&'a Expr>) -> Result<(), AllocError>
    ensures operands { OnOk result (views waiting.new.items ≡ views waiting.old.items ++ operands (view operator.now)) }
{
    match operator {
        Expr::Const(_) => Ok(()),
        Expr::Var(_) => Ok(()),
        Expr::Not(inner) => waiting.extend_from_slice(&[inner]),
        Expr::Pair(_, left, right) => waiting.extend_from_slice(&[right, left]),
        Expr::Choice(condition, first, second) => waiting.extend_from_slice(&[
            second, first, condition,
        ]),
    }
}

// Marks a name that wasn't met, and puts an input or register behind the order, and an inner signal's equation behind what waits.
fn visit<'a>(
    m: &'a Machine,
    name: u32,
    walked: &mut WalkedNames,
    waiting: &mut Vec<&'a Expr>,
) -> Result<(), AllocError>
    requires known { name < length m.now.vars }
    requires marks { length walked.old.met.items ≡ length m.now.vars }
    ensures meeting { OnOk result (IsMeeting m.now name walked.old walked.new (views waiting.old.items) (views waiting.new.items)) }
{
    let place = name as usize;
    if walked.met[place] {
        return Ok(());
    }
    walked.met[place] = true;
    let equations = m.equations().as_slice();
    let held = m.vars().as_slice().len() - equations.len();
    if place < held {
        walked.order.push(name)?;
    } else {
        waiting.push(&equations[place - held].expr)?;
    }
    Ok(())
}

/// Walks through the expansion of an expression over a machine's names, from left to right. Each equation is walked through once,
/// where its name is first met: a second time it holds nothing new. Takes memory for a mark a name, and for what is still to be
/// walked.
pub fn walk(alloc: Global, m: &Machine, e: &Expr) -> Result<WalkedNames, AllocError>
    requires over { IsOver (view e.now) (length m.now.vars) }
    requires few { length m.now.vars < 2 ^ 32 }
    ensures order { IfOk result (λ r. r.order.items ≡ order_of m.now (view e.now)) }
    ensures met { IfOk result (λ r. AreMet m.now (view e.now) r.met.items) }
{
    let met = vec![in alloc; false; m.vars().as_slice().len()]?;
    let mut walked = WalkedNames {
        order: Vec::new(alloc),
        met,
    };
    // What is still to be walked through, the next at the end.
    let mut waiting = Vec::new(alloc);
    waiting.push(e)?;
    while let Some(next) = waiting.pop() {
        if let Expr::Var(name) = next {
            visit(m, *name, &mut walked, &mut waiting)?;
        } else {
            open(next, &mut waiting)?;
        }
    }
    Ok(walked)
}
