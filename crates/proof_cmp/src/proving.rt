// The comparison of two machines.
ghost use Rattle.std.specs.Prelude.{◌≡◌, ◌<◌, ◌^◌, ◌++◌, ◌∷◌, [], length, IfOk, IfErr, IfSome, IfNone, List, Bool};
ghost use Rattle.std.specs.Option.{option_copied};
ghost use Rattle.bool_expr.specs.Expression.{Expression, val};
ghost use Rattle.machine_core.specs.Machine.{Machine as MachineValue};
ghost use Rattle.machine_walk.specs.Expansion.{expansion};
ghost use Rattle.machine_roots.specs.Roots.{Root};
ghost use Rattle.machine_roots.specs.Listing.{AreRoots};
ghost use Rattle.proof_joint.specs.Naming.{HaveSameNames};
ghost use Rattle.proof_joint.specs.Clock.{as_compared as compared_as};
ghost use Rattle.proof_joint.specs.Joint.{JoinsRoots};
ghost use Rattle.proof_joint.specs.Together.{root_pairs, IsOverTogether};
ghost use Rattle.proof_cmp.specs.Verdict.{AreComparable, IsVerdict, IsRefusal};
ghost use Rattle.proof_cmp.specs.Comparing.{pair_of, HaveDiagram, IsRootOf, IsOverPair, IsOverFirst, DifferOn, IsFound};

use crate::verdict::{ProofVerdict, ProveError};
use bdd_core::BddError;
use machine_core::Machine;
use machine_roots::{Cone, RootExpr, roots};
use proof_joint::{
    JointDiagram, as_compared, differing_bits, given_bits, joint_diagram, least_one_sided,
    spread_bits,
};
use std::alloc::{AllocError, Global};
use vlsi_base::Name;

// The two machines, which have the same names.
#[derive(Clone, Copy)]
struct Machines<'a> {
    first: &'a Machine,
    second: &'a Machine,
}

/// The first roots that differ, by their name, and bits on which they do.
#[derive(Drop)]
struct Difference<'a> {
    name: &'a Name,
    bits: Vec<bool>,
}

// The diagram of two roots, or why there is none.
fn diagram_of(
    alloc: Global,
    machines: Machines,
    first: RootExpr,
    second: RootExpr,
    budget: u32,
) -> Result<JointDiagram, ProveError>
    requires names { HaveSameNames machines.first.now machines.second.now }
    requires first { IsRootOf machines.first.now first }
    requires second { IsRootOf machines.second.now second }
    ensures diagram { IfOk result (λ d. HaveDiagram machines.entry first.entry second.entry d) }
    ensures within { IfOk result (λ _. IsOverTogether machines.entry.first.now machines.entry.second.now budget
        (pair_of first.entry second.entry) → ⊥) }
    ensures over { IfErr result (λ e. IsOverPair machines.entry.first.now machines.entry.second.now budget
        (pair_of first.entry second.entry) e) }
{
    let root = Cone {
        machine: machines.first,
        root: first.expr,
    };
    let other = Cone {
        machine: machines.second,
        root: second.expr,
    };
    match joint_diagram(alloc, root, other, budget) {
        Ok(diagram) => Ok(diagram),
        Err(BddError::Memory) => Err(ProveError::Memory),
        Err(BddError::Budget) => Err(ProveError::Budget(first.name.copy(alloc)?)),
    }
}

// Bits on which the roots of a diagram differ; `None` exactly where they are one function.
fn difference_in(
    alloc: Global,
    m: &Machine,
    joint: &JointDiagram,
) -> Result<Option<Vec<bool>>, AllocError>
    requires few { length m.now.vars < 2 ^ 32 }
    requires joint { (b : MachineValue) × (x : Expression) × (y : Expression) × JoinsRoots m.now b x y joint.now }
    ensures none { IfOk result (λ o. IfNone o ((b : MachineValue) (x y : Expression) → JoinsRoots m.now b x y joint.now
        → (w : List Bool) → val (expansion m.now x) w ≡ val (expansion b y) w)) }
    ensures some { IfOk result (λ o. IfSome o (λ bits. (b : MachineValue) (x y : Expression) → JoinsRoots m.now b x y joint.now
        → DifferOn m.now b x y bits.items)) }
{
    if joint.diagrams.same(joint.first, joint.second) {
        return Ok(None);
    }
    let order = joint.order.as_slice();
    let vars = order.len() as u32;
    let bits = differing_bits(alloc, &joint.diagrams, vars, joint.first, joint.second)?;
    let held = m.vars().as_slice().len() - m.equations().as_slice().len();
    let spread = spread_bits(alloc, order, &bits, held)?;
    let given = given_bits(alloc, m, &spread)?;
    Ok(Some(given))
}

// The first roots that differ, after two further ones: those that were found, or else these if they differ.
fn found_with<'a>(
    alloc: Global,
    m: &Machine,
    found: Option<Difference<'a>>,
    name: &'a Name,
    joint: &JointDiagram,
) -> Result<Option<Difference<'a>>, AllocError>
    requires few { length m.now.vars < 2 ^ 32 }
    requires joint { (b : MachineValue) × (x : Expression) × (y : Expression) × JoinsRoots m.now b x y joint.now }
    ensures { IfOk result (λ o. (b : MachineValue) (pairs : List (Root × Root)) (p : Root × Root) → p.0.name ≡ name.entry.now
        → JoinsRoots m.now b p.0.expr p.1.expr joint.now → IsFound m.now b pairs found.entry → IsFound m.now b (pairs ++ p ∷ []) o) }
{
    if found.is_some() {
        return Ok(found);
    }
    match difference_in(alloc, m, joint)? {
        Some(bits) => Ok(Some(Difference { name, bits })),
        None => Ok(None),
    }
}

// The first of the listed roots that differ, where some do and no diagram is over the budget.
fn compare_roots<'a>(
    alloc: Global,
    machines: Machines<'a>,
    firsts: &[RootExpr<'a>],
    others: &[RootExpr<'a>],
    budget: u32,
) -> Result<Option<Difference<'a>>, ProveError>
    requires names { HaveSameNames machines.first.now machines.second.now }
    requires first { length machines.first.now.vars < 2 ^ 32 }
    requires second { length machines.second.now.vars < 2 ^ 32 }
    requires firsts { AreRoots machines.first.now firsts.now }
    requires others { AreRoots machines.second.now others.now }
    ensures within { IfOk result (λ _. AreComparable machines.entry.first.now machines.entry.second.now budget) }
    ensures found { IfOk result (λ o. IsFound machines.entry.first.now machines.entry.second.now
        (root_pairs machines.entry.first.now machines.entry.second.now) o) }
    ensures refusal { IfErr result (λ e. IsOverFirst machines.entry.first.now machines.entry.second.now budget e) }
{
    // Machines are checked.
    let _ = machines.first.name();
    let _ = machines.second.name();
    let mut found = None;
    for (k, first) in firsts.iter().enumerate() {
        let second = others[k];
        let joint = diagram_of(alloc, machines, *first, second, budget)?;
        found = found_with(alloc, machines.first, found, first.name, &joint)?;
    }
    Ok(found)
}

// The first roots that differ, where some do and no diagram is over the budget.
fn compare<'a>(
    alloc: Global,
    machines: Machines<'a>,
    budget: u32,
) -> Result<Option<Difference<'a>>, ProveError>
    requires names { HaveSameNames machines.first.now machines.second.now }
    requires first { length machines.first.now.vars < 2 ^ 32 }
    requires second { length machines.second.now.vars < 2 ^ 32 }
    ensures within { IfOk result (λ _. AreComparable machines.entry.first.now machines.entry.second.now budget) }
    ensures found { IfOk result (λ o. IsFound machines.entry.first.now machines.entry.second.now
        (root_pairs machines.entry.first.now machines.entry.second.now) o) }
    ensures refusal { IfErr result (λ e. IsOverFirst machines.entry.first.now machines.entry.second.now budget e) }
{
    let firsts = roots(alloc, machines.first)?;
    let seconds = roots(alloc, machines.second)?;
    compare_roots(alloc, machines, &firsts, &seconds, budget)
}

// The machine as it is compared: the one that was made of the given one, or this itself where none was.
fn made_or_given<'a>(made: Option<&'a Machine>, given: &'a Machine) -> &'a Machine
    requires none { IfNone (option_copied made) (compared_as given.now ≡ given.now) }
    requires some { IfSome (option_copied made) (λ m. m ≡ compared_as given.now) }
    ensures { result.now ≡ compared_as given.entry.now }
{
    match made {
        Some(machine) => machine,
        None => given,
    }
}

/// Compares two machines, root by root: first their names, then the diagram of each two roots with the budget, and then the two
/// functions. A clock that loads nothing, in a machine without registers, is an input like the others. Takes time and memory for one
/// diagram at a time, and memory for the machines' names, and for a machine whose clock loads nothing.
pub fn prove(
    alloc: Global,
    a: &Machine,
    b: &Machine,
    budget: u32,
) -> Result<ProofVerdict, ProveError>
    requires first { length (compared_as a.now).vars < 2 ^ 32 }
    requires second { length (compared_as b.now).vars < 2 ^ 32 }
    ensures verdict { IfOk result (λ v. IsVerdict a.now b.now budget v) }
    ensures refusal { IfErr result (λ e. IsRefusal a.now b.now budget e) }
{
    if let Some(name) = least_one_sided(alloc, a, b)? {
        return Ok(ProofVerdict::Names(name.copy(alloc)?));
    }
    // Machines are checked.
    let _ = a.name();
    let _ = b.name();
    let first = as_compared(alloc, a)?;
    let second = as_compared(alloc, b)?;
    let machines = Machines {
        first: made_or_given(first.as_ref(), a),
        second: made_or_given(second.as_ref(), b),
    };
    match compare(alloc, machines, budget)? {
        Some(difference) => Ok(ProofVerdict::Differs {
            name: difference.name.copy(alloc)?,
            bits: difference.bits,
        }),
        None => Ok(ProofVerdict::Equal),
    }
}
