// What is chosen for two functions.
ghost use Rattle.std.specs.Prelude.{◌≡◌, Bool, true, false, IfOk};
ghost use Rattle.bdd_core.specs.Diagram.{IsNode, function_of};
ghost use Rattle.boom_choose.specs.Pick.{IsEverywhere, IsPick};

use crate::dag::dag_nodes;
use bdd_core::{Diagrams, NodeId};
use std::alloc::{AllocError, Global};

/// What is said of a free output: what is said with each free bit 0, or with each 1, or a bit.
#[derive(Clone, Copy)]
pub enum Pick {
    Low,
    High,
    Bit(bool),
}

// The bit that a constant function is.
fn constant_at(diagrams: &Diagrams, at: NodeId) -> Result<bool, AllocError>
    requires node { IsNode diagrams.now at }
    requires constant { (b : Bool) × IsEverywhere diagrams.now.table.vars (function_of diagrams.now at) b }
    ensures { IfOk result (λ bit. IsEverywhere diagrams.now.table.vars (function_of diagrams.now at) bit) }
{
    let one = diagrams.pick_true(at)?;
    Ok(one.is_some())
}

// Whether a function is this bit everywhere.
fn is_everywhere(diagrams: &Diagrams, at: NodeId, bit: bool) -> Result<bool, AllocError>
    requires { IsNode diagrams.now at }
    ensures yes { IfOk result (λ is. is ≡ true → IsEverywhere diagrams.now.table.vars (function_of diagrams.now at) bit) }
    ensures no { IfOk result (λ is. is ≡ false → IsEverywhere diagrams.now.table.vars (function_of diagrams.now at) bit → ⊥) }
{
    match diagrams.branch(at) {
        Some(_) => Ok(false),
        None => {
            let constant = constant_at(diagrams, at)?;
            Ok(constant == bit)
        }
    }
}

/// 0 where the first function is 0 everywhere; else 1 where the second is 1 everywhere; else the one with the smaller diagram, and the
/// first where these are as large. Takes memory for the nodes of one of them at a time.
pub fn pick_of(
    alloc: Global,
    diagrams: &Diagrams,
    first: NodeId,
    second: NodeId,
) -> Result<Pick, AllocError>
    requires first { IsNode diagrams.now first }
    requires second { IsNode diagrams.now second }
    ensures { IfOk result (λ p. IsPick diagrams.now.table.vars (function_of diagrams.now first) (function_of diagrams.now second) p) }
{
    if is_everywhere(diagrams, first, false)? {
        return Ok(Pick::Bit(false));
    }
    if is_everywhere(diagrams, second, true)? {
        return Ok(Pick::Bit(true));
    }
    let low = dag_nodes(alloc, diagrams, first)?;
    let high = dag_nodes(alloc, diagrams, second)?;
    if high < low {
        Ok(Pick::High)
    } else {
        Ok(Pick::Low)
    }
}
