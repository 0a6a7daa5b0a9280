// What is said of each name of the machine that is chosen.
ghost use Rattle.std.specs.Prelude.{◌≡◌, ◌<◌, ◌^◌, length, IfOk};
ghost use Rattle.bool_expr.specs.Expression.{IsOver as IsWithin};
ghost use Rattle.bool_expr.specs.View.{view};
ghost use Rattle.bdd_core.specs.Truths.{IsOver};
ghost use Rattle.machine_core.specs.Checked.{IsChecked};
ghost use Rattle.proof_joint.specs.Together.{joint_lists};
ghost use Rattle.machine_free.specs.Free.{AreFreed};
ghost use Rattle.boom_choose.specs.Pick.{said};
ghost use Rattle.boom_choose.specs.Choice.{IsChoice};

use crate::freed::is_freed;
use crate::pick::{Pick, pick_of};
use bdd_core::BddError;
use bool_expr::{Expr, copy};
use machine_core::{Equation, Machine};
use machine_roots::Cone;
use proof_joint::joint_diagram;
use std::alloc::{AllocError, Global};

fn said(alloc: Global, low: &Expr, high: &Expr, pick: Pick) -> Result<Expr, AllocError>
    ensures { IfOk result (λ x. view x ≡ said (view low.now) (view high.now) pick) }
{
    match pick {
        Pick::Low => copy(alloc, low),
        Pick::High => copy(alloc, high),
        Pick::Bit(bit) => Ok(Expr::Const(bit)),
    }
}

// What is said of a free output.
fn free_choice(
    alloc: Global,
    m: &Machine,
    low: &Expr,
    high: &Expr,
    budget: u32,
) -> Result<Expr, AllocError>
    requires checked { IsChecked m.now }
    requires few { length m.now.vars < 2 ^ 32 }
    requires low { IsWithin (view low.now) (length m.now.vars) }
    requires high { IsWithin (view high.now) (length m.now.vars) }
    requires freed { AreFreed (view low.now) (view high.now) }
    requires apart { view high.now ≡ view low.now → ⊥ }
    requires within { IsOver (joint_lists m.now m.now (view low.now) (view high.now)) budget → ⊥ }
    ensures { IfOk result (λ x. IsChoice m.now (view low.now) (view high.now) (view x)) }
{
    let first = Cone {
        machine: m,
        root: low,
    };
    let second = Cone {
        machine: m,
        root: high,
    };
    match joint_diagram(alloc, first, second, budget) {
        Ok(joint) => {
            let pick = pick_of(alloc, &joint.diagrams, joint.first, joint.second)?;
            said(alloc, low, high, pick)
        }
        Err(BddError::Memory) => Err(AllocError),
        Err(BddError::Budget) => unreachable!(),
    }
}

// What is said in place of two equations of one name.
pub fn chosen(
    alloc: Global,
    m: &Machine,
    equation: &Equation,
    other: &Equation,
    budget: u32,
) -> Result<Expr, AllocError>
    requires checked { IsChecked m.now }
    requires few { length m.now.vars < 2 ^ 32 }
    requires low { IsWithin (view equation.now.expr) (length m.now.vars) }
    requires high { IsWithin (view other.now.expr) (length m.now.vars) }
    requires freed { AreFreed (view equation.now.expr) (view other.now.expr) }
    requires within { (view other.now.expr ≡ view equation.now.expr → ⊥)
        → IsOver (joint_lists m.now m.now (view equation.now.expr) (view other.now.expr)) budget → ⊥ }
    ensures { IfOk result (λ x. IsChoice m.now (view equation.now.expr) (view other.now.expr) (view x)) }
{
    if is_freed(&equation.expr, &other.expr) {
        free_choice(alloc, m, &equation.expr, &other.expr, budget)
    } else {
        copy(alloc, &equation.expr)
    }
}
