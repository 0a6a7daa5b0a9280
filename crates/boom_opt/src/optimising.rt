// The call that makes a machine smaller.
//
// How it meets its bounds. A second machine is made beside the given one: for each root its diagram, and for each node of these an
// equation, a choice by an input or register of what is below. A choice weighs 4, or less beside a constant; equal choices are
// made once. Each root is then a name or a constant, of size 0; so is each inner signal that an output or a register shows by its name
// alone, and of all other inner signals nothing is read any more. So the second machine weighs, beside its outputs and registers,
// as much as its choices: at most 4 for each node of each root's diagram.
//
// The answer is the smaller one of the two, and the given one where they weigh the same. A smaller machine may have a larger netlist, since
// it is made of choices alone and shares less of what the roots have in common. So the given one is also kept where its subject graph
// has fewer gates, if its inner signals are within the bound. In the place of that answer comes a machine that was proposed, as one
// in which some roots keep their equations and others get those of their diagrams, or one whose gates are made anew: where it has
// fewer gates, and a check shows that it does the same and meets both bounds.
// - Its size is at most the given one.
// - Its inner signals weigh at most four times the diagrams: of the second machine this was said; and where the given one is kept,
//   all its expressions together weigh no more than the choices, or than the choices up to the one at which the second machine was
//   given up, which is a node of a diagram too, or its inner signals no more than four times the nodes of the diagrams.
// - What it says of a name of the given machine, or of what a register loads, is what was given, or weighs 0 where that weighs more.
//
// The second machine is given up as soon as it weighs as much as the given one. So the table of choices never holds more than the
// given machine weighs, however large the diagrams are; and of the diagrams only one is held at a time.
ghost use Rattle.std.specs.Prelude.{◌≡◌, ℕ, ◌++◌, ◌∷◌, [], ◌+◌, ◌-◌, ◌<◌, ◌≤◌, ◌⊎◌, ◌^◌, length, min, None, IfOk, IfErr, IfSome, OnOk, List};
ghost use Rattle.std.specs.List.{All, sum_by};
ghost use Rattle.bool_expr.specs.Expression.{size_of};
ghost use Rattle.bool_expr.specs.View.{view};
ghost use Rattle.machine_core.specs.Size.{machine_size};
ghost use Rattle.machine_roots.specs.Asked.{IsRootDiagram};
ghost use Rattle.machine_roots.specs.Listing.{root_view};
ghost use Rattle.machine_roots.specs.Roots.{Root, roots as roots_of, IsOverBudget, IsGreatestDcount};
ghost use Rattle.machine_core.specs.Checked.{IsChecked};
ghost use Rattle.boom_opt.specs.Optimised.{IsOptimised, IsInnerBound, IsOverIn};
ghost use Rattle.boom_muxes.specs.Building.{IsBuilt};
ghost use Rattle.boom_opt.specs.Rebuilt.{IsWeight, IsRootOf, IsOverRoot, IsNext, IsRebuilt, HasRebuilt};

use crate::error::BoomError;
use crate::gates::has_fewer_gates;
use bdd_core::BddError;
use bool_expr::size;
use boom_check::{Proposal, assembled, inner_weight, may_replace};
use boom_mix::{Choices, choices_of};
use boom_muxes::{Muxes, Plan, Stop, build, literal_of};
use indexmap::IndexMap;
use machine_core::{Equation, Machine, Register};
use machine_roots::{RootDiagram, RootExpr, root_diagram, roots};
use std::alloc::{AllocError, Global};

/// A machine that was made smaller, and how large the diagrams of the given one are.
#[derive(Drop)]
pub struct Optimised {
    pub machine: Machine,
    /// The most nodes that the diagram of a root has, with all subexpressions of its expansion; 0 where there is no root.
    pub nodes: u32,
}

/// The second machine, as far as it is made.
#[derive(Drop)]
struct Rebuilt {
    muxes: Muxes,
    plan: Plan,
    /// It was given up, since it would weigh as much as the given one.
    is_large: bool,
    nodes: u32,
    /// How many nodes the diagrams of the roots so far have together, each for itself; fewer where it was given up.
    diagram_nodes: u64,
}

// What these equations weigh together, or the greatest number of the type where that is less.
fn equations_weight(equations: &[Equation]) -> u64
    ensures { result ≡ min (sum_by (λ e. size_of (view e.expr)) equations.now) (2 ^ 64 - 1) }
{
    let mut sum = 0u64;
    for equation in equations {
        sum = sum.saturating_add(size(&equation.expr));
    }
    sum
}

// What these registers load weighs together, or the greatest number of the type where that is less.
fn registers_weight(registers: &[Register]) -> u64
    ensures { result ≡ min (sum_by (λ r. size_of (view r.next) + size_of (view r.enable)) registers.now) (2 ^ 64 - 1) }
{
    let mut sum = 0u64;
    for register in registers {
        sum = sum
            .saturating_add(size(&register.next))
            .saturating_add(size(&register.enable));
    }
    sum
}

// What all expressions of a machine weigh, or the greatest number of the type where that is less.
fn given_weight(m: &Machine) -> u64
    ensures { IsWeight m.now result }
{
    equations_weight(m.equations().as_slice()).saturating_add(registers_weight(
        m.registers().as_slice(),
    ))
}

// The diagram of a root, or why there is none.
fn diagram_of(
    alloc: Global,
    m: &Machine,
    root: RootExpr,
    budget: u32,
) -> Result<RootDiagram, BoomError>
    requires few { length m.now.vars < 2 ^ 32 }
    requires root { IsRootOf m.now root }
    ensures diagram { IfOk result (λ d. IsRootDiagram m.now (root_view root.entry).expr budget d) }
    ensures over { IfErr result (λ e. IsOverRoot m.now budget (root_view root.entry) e) }
{
    match root_diagram(alloc, m, root.expr, budget) {
        Ok(diagram) => Ok(diagram),
        Err(BddError::Memory) => Err(BoomError::Memory),
        Err(BddError::Budget) => Err(BoomError::Budget(root.name.copy(alloc)?)),
    }
}

fn greater(a: u32, b: u32) -> u32
    ensures { ((b ≤ a) × (result ≡ a)) ⊎ ((a < b) × (result ≡ b)) }
{
    if b > a { b } else { a }
}

impl Rebuilt {
    // Takes memory for the plan.
    fn begin(alloc: Global, m: &Machine) -> Result<Self, AllocError>
        requires { length m.now.vars + machine_size m.now < 2 ^ 32 }
        ensures { IfOk result (λ b. IsRebuilt m.now [] b) }
    {
        let equations = m.equations().as_slice().len();
        let held = m.vars().as_slice().len() - equations;
        Ok(Rebuilt {
            muxes: Muxes::new(alloc, held as u32, given_weight(m)),
            plan: Plan::new(alloc, equations)?,
            is_large: false,
            nodes: 0,
            diagram_nodes: 0,
        })
    }

    // Makes a further root, unless the machine is given up. Takes memory for its choices, and for what is known of the nodes.
    fn add(
        &mut self,
        alloc: Global,
        m: &Machine,
        root: RootExpr,
        diagram: &RootDiagram,
    ) -> Result<(), AllocError>
        requires few { length m.now.vars < 2 ^ 32 }
        requires root { IsRootOf m.now root }
        requires rebuilt { (before : List Root) × IsNext m.now before root × IsRebuilt m.now before self.old }
        requires diagram { (budget : ℕ) × IsRootDiagram m.now (root_view root).expr budget diagram.now }
        ensures { OnOk result ((before : List Root) → IsNext m.now before root.entry → IsRebuilt m.now before self.old
            → IsRebuilt m.now (before ++ root_view root.entry ∷ []) self.new) }
    {
        self.nodes = greater(self.nodes, diagram.diagrams.nodes());
        if self.is_large {
            return Ok(());
        }
        let mut known = IndexMap::new(alloc);
        match literal_of(&mut self.muxes, diagram, &mut known, diagram.root) {
            Ok(literal) => {
                let found = known.len() as u64;
                self.diagram_nodes = self.diagram_nodes.saturating_add(found);
                let equations = m.equations().as_slice();
                self.plan
                    .note(equations, self.muxes.held as usize, root, literal)
            }
            Err(Stop::Large) => {
                self.is_large = true;
                Ok(())
            }
            Err(Stop::Memory) => Err(AllocError),
        }
    }
}

// The second machine of all roots, or the first one over the budget.
fn remake(alloc: Global, m: &Machine, budget: u32) -> Result<Rebuilt, BoomError>
    requires few { length m.now.vars + machine_size m.now < 2 ^ 32 }
    requires checked { IsChecked m.now }
    ensures made { IfOk result (λ b. HasRebuilt m.now budget b) }
    ensures over { IfErr result (λ e. IsOverIn m.now budget e) }
{
    let roots = roots(alloc, m)?;
    let mut made = Rebuilt::begin(alloc, m)?;
    for root in &roots {
        let diagram = diagram_of(alloc, m, *root, budget)?;
        made.add(alloc, m, *root, &diagram)?;
    }
    Ok(made)
}

// The given machine again.
fn kept(alloc: Global, m: &Machine) -> Result<Machine, AllocError>
    requires checked { IsChecked m.now }
    requires few { length m.now.vars + length m.now.ports < 2 ^ 32 - 1 }
    ensures { IfOk result (λ o. IsBuilt m.now [] None o) }
{
    build(alloc, m, &[], None)
}

// The most that inner signals may weigh: four times the diagrams. Where the second machine was given up, that is what the given one
// weighs, which is no more.
fn most_inner(m: &Machine, made: &Rebuilt) -> u64
    requires { IsRebuilt m.now (roots_of m.now) made.now }
    ensures { IsInnerBound m.now result }
{
    if made.is_large {
        made.muxes.given
    } else {
        made.diagram_nodes.saturating_mul(4)
    }
}

// The smaller one of the two machines, and the given one where they weigh the same, or where it has fewer gates and its inner signals
// weigh at most four times the diagrams.
fn smaller(alloc: Global, m: &Machine, made: &Rebuilt) -> Result<Machine, AllocError>
    requires checked { IsChecked m.now }
    requires few { length m.now.vars + length m.now.ports + machine_size m.now < 2 ^ 32 - 1 }
    requires made { IsRebuilt m.now (roots_of m.now) made.now }
    ensures { IfOk result (λ o. IsOptimised m.now o) }
{
    if made.is_large {
        return kept(alloc, m);
    }
    if made.muxes.weight >= made.muxes.given {
        return kept(alloc, m);
    }
    let second = build(alloc, m, made.muxes.nodes.as_slice(), Some(&made.plan))?;
    if inner_weight(m) <= most_inner(m, made) && has_fewer_gates(alloc, m, &second, false)? {
        return kept(alloc, m);
    }
    Ok(second)
}

// How much inner signals may weigh, and how many nodes a diagram of two roots may have that shows that they are one function.
#[derive(Clone, Copy)]
struct Limits {
    most_inner: u64,
    budget: u32,
}

// How many times the nodes of the largest diagram a diagram of two roots may have, and how many more.
const TIMES_NODES: u32 = 4;

const MORE_NODES: u32 = 1000;

// The machine of a proposal, where there is one that has much fewer gates than the best one so far and may stand in the given one's place.
fn better(
    alloc: Global,
    m: &Machine,
    best: &Machine,
    proposal: Option<Proposal>,
    limits: Limits,
) -> Result<Option<Machine>, AllocError>
    requires few { length m.now.vars + length m.now.ports + machine_size m.now < 2 ^ 32 - 1 }
    requires bound { IsInnerBound m.now limits.most_inner }
    ensures { IfOk result (λ o. IfSome o (λ made. IsOptimised m.now made)) }
{
    let Some(proposal) = proposal else {
        return Ok(None);
    };
    let Some(made) = assembled(alloc, m, &proposal)? else {
        return Ok(None);
    };
    if !has_fewer_gates(alloc, &made, best, true)? {
        return Ok(None);
    }
    if may_replace(alloc, m, &made, limits.most_inner, limits.budget)? {
        Ok(Some(made))
    } else {
        Ok(None)
    }
}

// The machine with gates made anew where that is better, from nodes that are swept if they may be; and the best one elsewhere.
fn with_new_gates(
    alloc: Global,
    m: &Machine,
    best: Machine,
    choices: &Choices,
    limits: Limits,
) -> Result<Machine, AllocError>
    requires few { length m.now.vars + length m.now.ports + machine_size m.now < 2 ^ 32 - 1 }
    requires bound { IsInnerBound m.now limits.most_inner }
    requires best { IsOptimised m.now best }
    ensures { IfOk result (λ o. IsOptimised m.now o) }
{
    for is_swept in [true, false] {
        let proposal = choices.rewritten(alloc, m, is_swept)?;
        if let Some(made) = better(alloc, m, &best, proposal, limits)? {
            return Ok(made);
        }
    }
    Ok(best)
}

// The best machine of those that are proposed, and of the smaller one of the two.
fn best_of(alloc: Global, m: &Machine, made: &Rebuilt) -> Result<Machine, AllocError>
    requires checked { IsChecked m.now }
    requires few { length m.now.vars + length m.now.ports + machine_size m.now < 2 ^ 32 - 1 }
    requires made { IsRebuilt m.now (roots_of m.now) made.now }
    ensures { IfOk result (λ o. IsOptimised m.now o) }
{
    let first = smaller(alloc, m, made)?;
    let limits = Limits {
        most_inner: most_inner(m, made),
        budget: made
            .nodes
            .saturating_mul(TIMES_NODES)
            .saturating_add(MORE_NODES),
    };
    let muxes = made.muxes.nodes.as_slice();
    let choices = choices_of(alloc, m, muxes, &made.plan)?;
    let best = with_new_gates(alloc, m, first, &choices, limits)?;
    let mixed = choices.mixed(alloc, m, muxes, &made.plan)?;
    match better(alloc, m, &best, mixed, limits)? {
        Some(made) => Ok(made),
        None => Ok(best),
    }
}

/// A machine that does the same, isn't larger, and whose inner signals weigh at most four times the diagrams of the given one's
/// roots. `Budget` exactly where the diagram of a root, with all subexpressions of its expansion, has more nodes than the budget; it
/// names the first such root. Takes time and memory for one diagram at a time, and memory for both machines. New names are numbered
/// with the others, by 32 bits: there are no more of them than the machine weighs.
pub fn optimise(alloc: Global, m: &Machine, budget: u32) -> Result<Optimised, BoomError>
    requires few { length m.now.vars + length m.now.ports + machine_size m.now < 2 ^ 32 - 1 }
    ensures optimised { IfOk result (λ o. IsOptimised m.now o.machine) }
    ensures nodes { IfOk result (λ o. IsGreatestDcount m.now o.nodes) }
    ensures within { IfOk result (λ o. All (λ r. IsOverBudget m.now budget r → ⊥) (roots_of m.now)) }
    ensures over { IfErr result (λ e. IsOverIn m.now budget e) }
{
    // A machine is checked.
    let _ = m.name();
    let made = remake(alloc, m, budget)?;
    let machine = best_of(alloc, m, &made)?;
    Ok(Optimised {
        machine,
        nodes: made.nodes,
    })
}
