// Roots as nodes of one diagram, over inputs and registers.
ghost use Rattle.std.specs.Prelude.{◌≡◌, ◌<◌, ◌+◌, ◌^◌, ◌++◌, ◌∷◌, [], true, false, map, length, replicate, None, Ok, IfOk, IfErr, OnOk};
ghost use Rattle.std.specs.List.{All};
ghost use Rattle.bool_expr.specs.Expression.{IsOver as IsWithin};
ghost use Rattle.bool_expr.specs.View.{view};
ghost use Rattle.machine_core.specs.Order.{EachReadsBelow};
ghost use Rattle.machine_core.specs.View.{equation_view};
ghost use Rattle.bdd_core.specs.Truths.{constant, IsOver};
ghost use Rattle.bdd_core.specs.Nodes.{raised};
ghost use Rattle.bdd_core.specs.Diagram.{IsNode, function_of, functions_of, IsAsked};
ghost use Rattle.bdd_core.specs.Asked.{IsAnswerOf};
ghost use Rattle.machine_roots.specs.Asked.{HaveAsked};
ghost use Rattle.machine_roots.specs.Binding.{AreNodes, variable_lists, put_variables, bound_lists, asked_by};
ghost use Rattle.machine_roots.specs.Shared.{shared_lists, AreShared, cone_list, cone_lists};

use bdd_core::{BddError, Diagrams, NodeId};
use bool_expr::Expr;
use machine_core::{Equation, Machine};
use std::alloc::Global;

/// The logic of a root: an expression over a machine's names, with the equations that it reads.
#[derive(Clone, Copy)]
pub struct Cone<'a> {
    pub machine: &'a Machine,
    pub root: &'a Expr,
}

/// Diagrams whose variables are bound to inputs and registers.
#[derive(Drop)]
pub struct SharedDiagrams {
    pub diagrams: Diagrams,
    /// The node of the function that is 0.
    pub zero: NodeId,
    /// The nodes of inputs and registers, by their numbers.
    pub bound: Vec<NodeId>,
}

// So many times one node.
fn filled(alloc: Global, node: NodeId, count: usize) -> Result<Vec<NodeId>, BddError>
    ensures items { IfOk result (λ v. v.items ≡ replicate count node) }
    ensures kind { IfErr result (λ e. e ≡ BddError.Memory) }
{
    let filled = vec![in alloc; node; count];
    match filled {
        Ok(nodes) => Ok(nodes),
        Err(_) => Err(BddError::Memory),
    }
}

// Puts a node behind the others.
fn push_node(bound: &mut Vec<NodeId>, node: NodeId) -> Result<(), BddError>
    ensures items { OnOk result (bound.new.items ≡ bound.old.items ++ node ∷ []) }
    ensures kind { IfErr result (λ e. e ≡ BddError.Memory) }
{
    match bound.push(node) {
        Ok(()) => Ok(()),
        Err(_) => Err(BddError::Memory),
    }
}

// Asks for the variables, and binds the inputs and registers that they stand for to them.
fn bind_held(
    diagrams: &mut Diagrams,
    order: &[u32],
    bound: &mut Vec<NodeId>,
) -> Result<(), BddError>
    requires vars { diagrams.old.table.vars ≡ length order.now }
    requires few { length order.now < 2 ^ 32 }
    requires live { diagrams.old.refused ≡ None }
    requires within { All (λ k. k < length bound.old.items) order.now }
    requires nodes { AreNodes diagrams.old bound.old.items }
    ensures asked { HaveAsked diagrams.old diagrams.new (variable_lists (length order.now)) result }
    ensures nodes { OnOk result (AreNodes diagrams.new bound.new.items) }
    ensures functions { OnOk result (functions_of diagrams.new bound.new.items
        ≡ put_variables (length order.now) 0 order.now (functions_of diagrams.old bound.old.items)) }
{
    for (k, name) in order.iter().enumerate() {
        let node = diagrams.variable(k as u32)?;
        bound[*name as usize] = node;
    }
    Ok(())
}

/// Diagrams in which the variables of an order stand for inputs and registers; each other input or register is bound to 0.
pub fn share(
    alloc: Global,
    order: &[u32],
    held: usize,
    budget: u32,
) -> Result<SharedDiagrams, BddError>
    requires few { length order.now < 2 ^ 32 }
    requires within { All (λ k. k < held) order.now }
    ensures shared { IfOk result (λ s. AreShared order.now held budget s) }
    ensures over { IfErr result (λ e. e ≡ BddError.Budget → IsOver (shared_lists (length order.now)) budget) }
{
    let mut diagrams = Diagrams::begin(alloc, order.len() as u32, budget);
    let zero = diagrams.of_expr(&Expr::Const(false), &[])?;
    let mut bound = filled(alloc, zero, held)?;
    bind_held(&mut diagrams, order, &mut bound)?;
    Ok(SharedDiagrams {
        diagrams,
        zero,
        bound,
    })
}

// The node of a name's function: of what its equation says, which is asked for, where the name is met, and elsewhere the one that is
// lent.
fn name_node(
    diagrams: &mut Diagrams,
    e: &Expr,
    is_met: bool,
    zero: NodeId,
    bound: &[NodeId],
) -> Result<NodeId, BddError>
    requires variables { IsWithin (view e.now) (length bound.now) }
    requires bound { AreNodes diagrams.old bound.now }
    ensures met { is_met ≡ true → IsAnswerOf diagrams.old diagrams.new bound.now (view e.now) result }
    ensures other { is_met ≡ false → (diagrams.new ≡ diagrams.old) × (result ≡ Ok zero) }
{
    if is_met {
        diagrams.of_expr(e, bound)
    } else {
        Ok(zero)
    }
}

// Asks for what the equations say that are met, each of which reads what is bound before it, and binds their names behind those that
// are bound. A name that isn't met gets the node that is lent.
fn bind_equations(
    diagrams: &mut Diagrams,
    equations: &[Equation],
    met: &[bool],
    zero: NodeId,
    bound: &mut Vec<NodeId>,
) -> Result<(), BddError>
    requires live { diagrams.old.refused ≡ None }
    requires nodes { AreNodes diagrams.old bound.old.items }
    requires zero { IsNode diagrams.old zero × (function_of diagrams.old zero ≡ raised diagrams.old.table.vars (constant false)) }
    requires marks { length met.now ≡ length bound.old.items + length equations.now }
    requires below { EachReadsBelow (length bound.old.items) (map equation_view equations.now) }
    ensures asked { HaveAsked diagrams.old diagrams.new (asked_by diagrams.old.table.vars met.now
        (functions_of diagrams.old bound.old.items) (map equation_view equations.now)) result }
    ensures nodes { OnOk result (AreNodes diagrams.new bound.new.items) }
    ensures functions { OnOk result (functions_of diagrams.new bound.new.items ≡ bound_lists diagrams.old.table.vars met.now
        (functions_of diagrams.old bound.old.items) (map equation_view equations.now)) }
{
    for equation in equations {
        let is_met = met[bound.len()];
        let node = name_node(diagrams, &equation.expr, is_met, zero, bound)?;
        push_node(bound, node)?;
    }
    Ok(())
}

/// The node of a root whose machine's inputs and registers are bound. Takes memory for the machine's names and for the new nodes.
pub fn root_node(
    diagrams: &mut Diagrams,
    cone: Cone,
    met: &[bool],
    zero: NodeId,
    bound: Vec<NodeId>,
) -> Result<NodeId, BddError>
    requires live { diagrams.old.refused ≡ None }
    requires nodes { AreNodes diagrams.old bound.items }
    requires zero { IsNode diagrams.old zero × (function_of diagrams.old zero ≡ raised diagrams.old.table.vars (constant false)) }
    requires marks { length met.now ≡ length bound.items + length cone.machine.now.equations }
    requires below { EachReadsBelow (length bound.items) cone.machine.now.equations }
    requires over { IsWithin (view cone.root.now) (length bound.items + length cone.machine.now.equations) }
    ensures asked { HaveAsked diagrams.old diagrams.new
        (cone_lists diagrams.old.table.vars met.now (functions_of diagrams.old bound.items) cone.entry) result }
    ensures node { IfOk result (λ a. IsAsked diagrams.old diagrams.new
        (cone_lists diagrams.old.table.vars met.now (functions_of diagrams.old bound.items) cone.entry)
        (cone_list diagrams.old.table.vars met.now (functions_of diagrams.old bound.items) cone.entry) a) }
{
    let mut bound = bound;
    let equations = cone.machine.equations().as_slice();
    bind_equations(diagrams, equations, met, zero, &mut bound)?;
    diagrams.of_expr(cone.root, &bound)
}
