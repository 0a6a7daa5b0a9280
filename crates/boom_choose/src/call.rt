// The call that chooses a machine among what is left free.
ghost use Rattle.std.specs.Prelude.{◌<◌, ◌^◌, length, IfOk, IfErr};
ghost use Rattle.std.specs.List.{All};
ghost use Rattle.machine_core.specs.Machine.{outputs};
ghost use Rattle.machine_free.specs.Free.{AreFree};
ghost use Rattle.boom_choose.specs.Choice.{IsChosen, IsOverBoth};
ghost use Rattle.boom_choose.specs.Refused.{IsOverIn};

use crate::budget::check_budget;
use crate::machine::{chosen_equations, with_equations};
use boom_opt::BoomError;
use machine_core::Machine;
use machine_free::FreeMachine;
use std::alloc::Global;

/// A machine that does nothing but what is left free: that with each free bit 0 in all but the outputs that are left free. Such an output
/// is 0 where its value is never fixed to 1; else 1 where it is never fixed to 0; else what is said of it with each free bit 0 or with
/// each 1, whichever has the smaller diagram, and the first where these are as large. `Budget` exactly where the diagram of an output,
/// left free or not, with all subexpressions of both expansions, has more nodes than the budget; it names the first such output in the
/// order of names. Takes time and memory for one diagram at a time, and memory for the machine.
pub fn choose(alloc: Global, m: &FreeMachine, budget: u32) -> Result<Machine, BoomError>
    requires few { length m.now.low.vars < 2 ^ 32 }
    requires free { AreFree m.now.low m.now.high }
    ensures chosen { IfOk result (λ o. IsChosen m.now.low m.now.high o) }
    ensures within { IfOk result (λ _. All (λ n. IsOverBoth m.now.low m.now.high budget n → ⊥) (outputs m.now.low)) }
    ensures over { IfErr result (λ e. IsOverIn m.now.low m.now.high budget e) }
{
    check_budget(alloc, m, budget)?;
    let equations = chosen_equations(alloc, m, budget)?;
    let machine = with_equations(alloc, m, equations)?;
    Ok(machine)
}
