// Two roots in one diagram.
//
// Neither expansion is made: each equation that a root's walk meets is asked for once.
ghost use Rattle.std.specs.Prelude.{◌≡◌, ℕ, ◌<◌, ◌++◌, not, filter, length, IfOk, IfErr};
ghost use Rattle.std.specs.List.{All};
ghost use Rattle.bool_expr.specs.Expression.{bit};
ghost use Rattle.machine_walk.specs.Expansion.{held_count};
ghost use Rattle.machine_roots.specs.Shared.{AreShared};
ghost use Rattle.proof_joint.specs.Naming.{HaveSameNames};
ghost use Rattle.proof_joint.specs.Joint.{IsCone, IsWalked, AreJoined, cones_order, AreOver};

use bdd_core::{BddError, Diagrams, NodeId};
use machine_roots::{Cone, SharedDiagrams, root_node, share};
use machine_walk::{WalkedNames, walk};
use std::alloc::Global;

// A root, and what a walk through its expansion meets.
#[derive(Drop)]
struct WalkedCone<'a> {
    cone: Cone<'a>,
    names: WalkedNames,
}

/// The diagram of all subexpressions of two roots' expansions.
#[derive(Drop)]
pub struct JointDiagram {
    pub diagrams: Diagrams,
    pub first: NodeId,
    pub second: NodeId,
    /// The diagram's variables in their order: inputs and registers, by their numbers.
    pub order: Vec<u32>,
}

// The same nodes.
fn copied(alloc: Global, nodes: &[NodeId]) -> Result<Vec<NodeId>, BddError>
    ensures items { IfOk result (λ v. v.items ≡ nodes.now) }
    ensures kind { IfErr result (λ e. e ≡ BddError.Memory) }
{
    match nodes.to_vec(alloc) {
        Ok(copies) => Ok(copies),
        Err(_) => Err(BddError::Memory),
    }
}

// Walks through a root's expansion.
fn walked<'a>(alloc: Global, cone: Cone<'a>) -> Result<WalkedCone<'a>, BddError>
    requires { IsCone cone }
    ensures cone { IfOk result (λ w. w.cone ≡ cone.entry) }
    ensures names { IfOk result (λ w. IsWalked w.cone w.names) }
    ensures kind { IfErr result (λ e. e ≡ BddError.Memory) }
{
    match walk(alloc, cone.machine, cone.root) {
        Ok(names) => Ok(WalkedCone { cone, names }),
        Err(_) => Err(BddError::Memory),
    }
}

// What a first walk meets, and then what only a second one meets.
fn joined_order(alloc: Global, first: &WalkedNames, second: &[u32]) -> Result<Vec<u32>, BddError>
    requires within { All (λ k. k < length first.now.met.items) second.now }
    ensures items { IfOk result (λ v. v.items ≡ first.now.order.items ++ filter (λ k. not (bit first.now.met.items k)) second.now) }
    ensures kind { IfErr result (λ e. e ≡ BddError.Memory) }
{
    let Ok(mut order) = first.order.to_vec(alloc) else {
        return Err(BddError::Memory);
    };
    for name in second {
        if !first.met[*name as usize] && order.push(*name).is_err() {
            return Err(BddError::Memory);
        }
    }
    Ok(order)
}

// The nodes of both roots.
fn both_roots(
    alloc: Global,
    shared: SharedDiagrams,
    order: Vec<u32>,
    first: &WalkedCone,
    second: &WalkedCone,
) -> Result<JointDiagram, BddError>
    requires names { HaveSameNames first.now.cone.machine.now second.now.cone.machine.now }
    requires first { IsWalked first.now.cone first.now.names }
    requires second { IsWalked second.now.cone second.now.names }
    requires order { order.items ≡ cones_order first.now.cone second.now.cone }
    requires shared { (budget : ℕ) × AreShared order.items (held_count first.now.cone.machine.now) budget shared }
    ensures diagram { IfOk result (λ d. AreJoined first.now.cone second.now.cone d) }
    ensures within { IfOk result (λ _. (budget : ℕ) → AreShared order.items (held_count first.now.cone.machine.now) budget shared
        → AreOver first.now.cone second.now.cone budget → ⊥) }
    ensures over { IfErr result (λ r. r ≡ BddError.Budget → (budget : ℕ)
        → AreShared order.items (held_count first.now.cone.machine.now) budget shared → AreOver first.now.cone second.now.cone budget) }
{
    let SharedDiagrams {
        diagrams,
        zero,
        bound,
    } = shared;
    let mut diagrams = diagrams;
    let again = copied(alloc, &bound)?;
    let root = root_node(&mut diagrams, first.cone, &first.names.met, zero, bound)?;
    let other = root_node(&mut diagrams, second.cone, &second.names.met, zero, again)?;
    Ok(JointDiagram {
        diagrams,
        first: root,
        second: other,
        order,
    })
}

/// The diagram of the expressions of two machines that have the same names. `Budget` exactly where all subexpressions of their
/// expansions together count more truth lists than the budget. Takes time and memory for the machines' names and for the diagram,
/// and not for the expansions.
pub fn joint_diagram(
    alloc: Global,
    first: Cone,
    second: Cone,
    budget: u32,
) -> Result<JointDiagram, BddError>
    requires names { HaveSameNames first.machine.now second.machine.now }
    requires first { IsCone first }
    requires second { IsCone second }
    ensures diagram { IfOk result (λ d. AreJoined first.entry second.entry d) }
    ensures within { IfOk result (λ _. AreOver first.entry second.entry budget → ⊥) }
    ensures over { IfErr result (λ r. r ≡ BddError.Budget → AreOver first.entry second.entry budget) }
{
    let root = walked(alloc, first)?;
    let other = walked(alloc, second)?;
    let order = joined_order(alloc, &root.names, &other.names.order)?;
    let equations = first.machine.equations().as_slice();
    let held = first.machine.vars().as_slice().len() - equations.len();
    let shared = share(alloc, &order, held, budget)?;
    both_roots(alloc, shared, order, &root, &other)
}
