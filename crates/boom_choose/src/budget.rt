// The budget of all outputs.
ghost use Rattle.std.specs.Prelude.{◌≡◌, ◌<◌, ◌^◌, length, IfOk, IfErr};
ghost use Rattle.std.specs.List.{All};
ghost use Rattle.bool_expr.specs.Expression.{IsOver as IsWithin};
ghost use Rattle.bool_expr.specs.View.{view};
ghost use Rattle.bdd_core.specs.Truths.{IsOver};
ghost use Rattle.machine_core.specs.Checked.{IsChecked};
ghost use Rattle.machine_core.specs.Machine.{outputs};
ghost use Rattle.machine_free.specs.Free.{AreFree};
ghost use Rattle.proof_joint.specs.Together.{joint_lists};
ghost use Rattle.boom_choose.specs.Choice.{IsOverBoth};
ghost use Rattle.boom_choose.specs.Refused.{IsOverAt, IsOverIn};

use bdd_core::BddError;
use boom_opt::BoomError;
use machine_core::{Equation, Machine};
use machine_free::FreeMachine;
use machine_roots::{Cone, RootExpr, roots};
use proof_joint::joint_diagram;
use std::alloc::Global;

// Whether both expressions of an output together are within the budget.
fn check_output(
    alloc: Global,
    m: &Machine,
    root: RootExpr,
    other: &Equation,
    budget: u32,
) -> Result<(), BoomError>
    requires checked { IsChecked m.now }
    requires few { length m.now.vars < 2 ^ 32 }
    requires low { IsWithin (view root.expr.now) (length m.now.vars) }
    requires high { IsWithin (view other.now.expr) (length m.now.vars) }
    ensures within { IfOk result (λ _. IsOver (joint_lists m.now m.now (view root.entry.expr.now) (view other.now.expr)) budget → ⊥) }
    ensures over { IfErr result (λ e. IsOverAt m.now root.entry.name.now (view root.entry.expr.now) (view other.now.expr) budget e) }
{
    let first = Cone {
        machine: m,
        root: root.expr,
    };
    let second = Cone {
        machine: m,
        root: &other.expr,
    };
    match joint_diagram(alloc, first, second, budget) {
        Ok(_) => Ok(()),
        Err(BddError::Memory) => Err(BoomError::Memory),
        Err(BddError::Budget) => Err(BoomError::Budget(root.name.copy(alloc)?)),
    }
}

/// Whether each output is within the budget, in the order of names.
pub fn check_budget(alloc: Global, m: &FreeMachine, budget: u32) -> Result<(), BoomError>
    requires few { length m.now.low.vars < 2 ^ 32 }
    requires free { AreFree m.now.low m.now.high }
    ensures within { IfOk result (λ _. All (λ n. IsOverBoth m.now.low m.now.high budget n → ⊥) (outputs m.now.low)) }
    ensures over { IfErr result (λ e. IsOverIn m.now.low m.now.high budget e) }
{
    let low = &m.low;
    let others = m.high.equations().as_slice();
    let listed = roots(alloc, low)?;
    // A machine is checked.
    let _ = low.name();
    for root in &listed {
        if let Some(k) = root.equation {
            check_output(alloc, low, *root, &others[k], budget)?;
        }
    }
    Ok(())
}
