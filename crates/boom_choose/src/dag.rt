// How many nodes the diagram of one function has.
ghost use Rattle.std.specs.Prelude.{◌≡◌, ◌∷◌, [], true, IfOk, OnOk};
ghost use Rattle.vlsi_base.specs.Member.{In};
ghost use Rattle.bdd_core.specs.Truths.{IsCountOf};
ghost use Rattle.bdd_core.specs.Nodes.{IsWhole};
ghost use Rattle.bdd_core.specs.Diagram.{IsNode, function_of};
ghost use Rattle.boom_choose.specs.Dag.{AreSeen, HasSeen, Notes};

use bdd_core::{Diagrams, NodeId};
use indexmap::IndexSet;
use std::alloc::{AllocError, Global};

// Whether the node was seen.
fn is_seen(seen: &IndexSet<NodeId>, at: NodeId) -> bool
    ensures { result ≡ true → In at seen.now.keys }
{
    seen.contains(&at)
}

// The node is seen from now on.
fn note(seen: &mut IndexSet<NodeId>, at: NodeId) -> Result<(), AllocError>
    ensures { OnOk result (Notes at seen.old.keys seen.new.keys) }
{
    match seen.insert(at) {
        Ok(_) => Ok(()),
        Err(_) => Err(AllocError),
    }
}

// Goes through the nodes of a function's diagram, each after those below it.
fn visit(diagrams: &Diagrams, seen: &mut IndexSet<NodeId>, at: NodeId) -> Result<(), AllocError>
    requires whole { IsWhole diagrams.now.table }
    requires node { IsNode diagrams.now at }
    requires seen { AreSeen diagrams.now seen.old.keys }
    ensures { OnOk result (HasSeen diagrams.now at seen.old.keys seen.new.keys) }
{
    let Some(branch) = diagrams.branch(at) else {
        return Ok(());
    };
    if is_seen(seen, at) {
        return Ok(());
    }
    visit(diagrams, seen, branch.low)?;
    visit(diagrams, seen, branch.high)?;
    note(seen, at)
}

/// How many truth lists the function of a node counts: the nodes of its diagram alone. Takes time and memory for these.
pub fn dag_nodes(alloc: Global, diagrams: &Diagrams, at: NodeId) -> Result<usize, AllocError>
    requires { IsNode diagrams.now at }
    ensures { IfOk result (λ n. IsCountOf (function_of diagrams.now at ∷ []) n) }
{
    let _whole = diagrams.nodes();
    let mut seen = IndexSet::new(alloc);
    visit(diagrams, &mut seen, at)?;
    Ok(seen.len())
}
