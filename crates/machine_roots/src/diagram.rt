// The diagram of a root.
ghost use Rattle.std.specs.Prelude.{◌≡◌, ◌<◌, ◌^◌, length, IfOk, IfErr};
ghost use Rattle.bool_expr.specs.Expression.{IsOver as IsWithin};
ghost use Rattle.bool_expr.specs.View.{view};
ghost use Rattle.bdd_core.specs.Truths.{IsOver};
ghost use Rattle.machine_roots.specs.Roots.{lists_of};
ghost use Rattle.machine_roots.specs.Asked.{IsRootDiagram};

use crate::sharing::{Cone, SharedDiagrams, root_node, share};
use bdd_core::{BddError, Diagrams, NodeId};
use bool_expr::Expr;
use machine_core::Machine;
use machine_walk::walk;
use std::alloc::Global;

/// The diagram of all subexpressions of a root's expansion.
#[derive(Drop)]
pub struct RootDiagram {
    pub diagrams: Diagrams,
    /// The node of the root.
    pub root: NodeId,
    /// The node of the function that is 0.
    pub zero: NodeId,
    /// The diagram's variables in their order: inputs and registers, by their numbers among the machine's names.
    pub order: Vec<u32>,
}

/// The diagram of an expression over a machine's names. `Budget` exactly where all subexpressions of its expansion together count
/// more truth lists than the budget. Takes time and memory for the machine's names and for the diagram, and not for the expansion:
/// each equation is asked for once.
pub fn root_diagram(
    alloc: Global,
    m: &Machine,
    e: &Expr,
    budget: u32,
) -> Result<RootDiagram, BddError>
    requires over { IsWithin (view e.now) (length m.now.vars) }
    requires few { length m.now.vars < 2 ^ 32 }
    ensures diagram { IfOk result (λ d. IsRootDiagram m.now (view e.now) budget d) }
    ensures over { IfErr result (λ r. r ≡ BddError.Budget → IsOver (lists_of m.now (view e.now)) budget) }
{
    let Ok(walked) = walk(alloc, m, e) else {
        return Err(BddError::Memory);
    };
    let equations = m.equations().as_slice();
    let held = m.vars().as_slice().len() - equations.len();
    let SharedDiagrams {
        diagrams,
        zero,
        bound,
    } = share(alloc, &walked.order, held, budget)?;
    let mut diagrams = diagrams;
    let cone = Cone {
        machine: m,
        root: e,
    };
    let root = root_node(&mut diagrams, cone, &walked.met, zero, bound)?;
    Ok(RootDiagram {
        diagrams,
        root,
        zero,
        order: walked.order,
    })
}
