// Whether a machine may stand in the place of another.
ghost use Rattle.std.specs.Prelude.{◌≡◌, ◌+◌, ◌-◌, ◌^◌, ◌<◌, true, length, IfOk};
ghost use Rattle.machine_core.specs.Size.{machine_size as size_of_machine};
ghost use Rattle.proof_joint.specs.Naming.{HaveSameNames};
ghost use Rattle.proof_cmp.specs.Verdict.{AreEqual};
ghost use Rattle.proof_joint.specs.Joint.{IsCone, AreOver};
ghost use Rattle.boom_check.specs.Checking.{AreOneFunction};
ghost use Rattle.boom_check.specs.Assembling.{IsAssembled};
ghost use Rattle.boom_check.specs.Kept.{IsAcceptable};

use crate::weighing::inner_weight;
use bdd_core::BddError;
use machine_core::{Machine, machine_size};
use machine_roots::{Cone, roots};
use proof_joint::joint_diagram;
use std::alloc::{AllocError, Global};

// Whether two roots of machines that have the same names are one function, as far as a diagram within the budget shows it.
fn is_one_function(
    alloc: Global,
    first: Cone,
    second: Cone,
    budget: u32,
) -> Result<bool, AllocError>
    requires names { HaveSameNames first.machine.now second.machine.now }
    requires first { IsCone first }
    requires second { IsCone second }
    ensures function { IfOk result (λ same. same ≡ true → AreOneFunction first.entry second.entry) }
    ensures within { IfOk result (λ same. same ≡ true → AreOver first.entry second.entry budget → ⊥) }
{
    match joint_diagram(alloc, first, second, budget) {
        Ok(joint) => Ok(joint.diagrams.same(joint.first, joint.second)),
        Err(BddError::Budget) => Ok(false),
        Err(BddError::Memory) => Err(AllocError),
    }
}

// Whether each root of a machine is the same function as that of another machine.
fn have_same_roots(alloc: Global, m: &Machine, o: &Machine, budget: u32) -> Result<bool, AllocError>
    requires names { HaveSameNames m.now o.now }
    requires first { length m.now.vars < 2 ^ 32 }
    requires second { length o.now.vars < 2 ^ 32 }
    ensures { IfOk result (λ same. same ≡ true → AreEqual m.now o.now) }
{
    // Machines are checked.
    let _ = m.name();
    let _ = o.name();
    let firsts = roots(alloc, m)?;
    let seconds = roots(alloc, o)?;
    for (k, first) in firsts.iter().enumerate() {
        let root = Cone {
            machine: m,
            root: first.expr,
        };
        let other = Cone {
            machine: o,
            root: seconds[k].expr,
        };
        if !is_one_function(alloc, root, other, budget)? {
            return Ok(false);
        }
    }
    Ok(true)
}

/// Whether a machine that was put together does the same as the given one, isn't larger, and has inner signals that weigh at most so
/// much. Where a diagram of two roots together has more nodes than the budget, the answer is no. Takes time and memory for one such
/// diagram at a time.
pub fn may_replace(
    alloc: Global,
    m: &Machine,
    o: &Machine,
    most: u64,
    budget: u32,
) -> Result<bool, AllocError>
    requires few { length m.now.vars + length m.now.ports + size_of_machine m.now < 2 ^ 32 - 1 }
    requires assembled { IsAssembled m.now o.now }
    ensures { IfOk result (λ may. may ≡ true → IsAcceptable m.now most o.now) }
{
    // Machines are checked.
    let _ = m.name();
    let _ = o.name();
    if machine_size(o) > machine_size(m) || inner_weight(o) > most {
        return Ok(false);
    }
    have_same_roots(alloc, m, o, budget)
}
