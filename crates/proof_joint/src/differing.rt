// Bits on which two functions differ.
ghost use Rattle.std.specs.Prelude.{◌≡◌, ℕ, ◌<◌, ◌≤◌, ◌++◌, ◌+◌, Bool, false, List, Some, length, map, IfOk};
ghost use Rattle.std.specs.List.{All};
ghost use Rattle.std.specs.Option.{option_copied};
ghost use Rattle.vlsi_base.specs.Member.{AllDifferent};
ghost use Rattle.machine_core.specs.Named.{values_at};
ghost use Rattle.machine_core.specs.Machine.{is_clock, register_names as names_of_registers};
ghost use Rattle.machine_core.specs.Order.{held_names};
ghost use Rattle.machine_walk.specs.Expansion.{held_count};
ghost use Rattle.bdd_core.specs.Truths.{Truths, halves};
ghost use Rattle.bdd_core.specs.Nodes.{raised};
ghost use Rattle.bdd_core.specs.Diagram.{IsNode, function_of};
ghost use Rattle.proof_joint.specs.Together.{given_names};
ghost use Rattle.proof_joint.specs.Bits.{Computes, AreSpread};

use crate::naming::{Role, names_with};
use bdd_core::{Diagrams, NodeId};
use machine_core::Machine;
use std::alloc::{AllocError, Global};
use vlsi_base::Name;

// The nodes of a function with a variable 0 and 1.
#[derive(Clone, Copy)]
struct Halves {
    low: NodeId,
    high: NodeId,
}

// The nodes of a function with a variable 0 and 1, where it depends on none before that one.
fn halves_at(diagrams: &Diagrams, node: NodeId, variable: u32) -> Halves
    requires node { IsNode diagrams.now node }
    requires within { variable < diagrams.now.table.vars }
    requires halves { (low high : Truths) × (function_of diagrams.now node ≡ raised variable (halves low high)) }
    ensures low { IsNode diagrams.now result.low }
    ensures high { IsNode diagrams.now result.high }
    ensures halves { (low high : Truths) → function_of diagrams.now node ≡ raised variable (halves low high)
        → (function_of diagrams.now result.low ≡ raised (variable + 1) low)
        × (function_of diagrams.now result.high ≡ raised (variable + 1) high) }
{
    match diagrams.branch(node) {
        Some(branch) if branch.variable == variable => Halves {
            low: branch.low,
            high: branch.high,
        },
        _ => Halves {
            low: node,
            high: node,
        },
    }
}

/// Bits of all variables on which two functions differ, that of variable 0 first. Takes memory for them.
pub fn differing_bits(
    alloc: Global,
    diagrams: &Diagrams,
    vars: u32,
    first: NodeId,
    second: NodeId,
) -> Result<Vec<bool>, AllocError>
    requires vars { diagrams.now.table.vars ≡ vars }
    requires first { (g : List Bool → Bool) × Computes diagrams.now first g }
    requires second { (g : List Bool → Bool) × Computes diagrams.now second g }
    requires apart { function_of diagrams.now first ≡ function_of diagrams.now second → ⊥ }
    ensures length { IfOk result (λ bits. length bits.items ≡ vars) }
    ensures differ { IfOk result (λ bits. (g h : List Bool → Bool) → Computes diagrams.now first g → Computes diagrams.now second h
        → g bits.items ≡ h bits.items → ⊥) }
{
    let mut bits = Vec::new(alloc);
    let mut root = first;
    let mut other = second;
    for variable in 0..vars {
        let parts = halves_at(diagrams, root, variable);
        let others = halves_at(diagrams, other, variable);
        let is_high = diagrams.same(parts.low, others.low);
        bits.push(is_high)?;
        root = if is_high { parts.high } else { parts.low };
        other = if is_high { others.high } else { others.low };
    }
    Ok(bits)
}

/// So many bits, with those of an order at the places that it names, and 0 elsewhere. Takes memory for them.
pub fn spread_bits(
    alloc: Global,
    order: &[u32],
    bits: &[bool],
    count: usize,
) -> Result<Vec<bool>, AllocError>
    requires different { AllDifferent order.now }
    requires within { All (λ k. k < count) order.now }
    requires each { length bits.now ≡ length order.now }
    ensures length { IfOk result (λ v. length v.items ≡ count) }
    ensures spread { IfOk result (λ v. AreSpread order.now bits.now v.items) }
{
    let mut spread = vec![in alloc; false; count]?;
    for (k, name) in order.iter().enumerate() {
        spread[*name as usize] = bits[k];
    }
    Ok(spread)
}

fn is_clock(clock: Option<&Name>, name: &Name) -> bool
    ensures { result ≡ is_clock (option_copied clock.entry) name.now }
{
    match clock {
        Some(clock) => clock.is_same(name),
        None => false,
    }
}

/// The bits of inputs and registers, with 0 for the clock where it stands among the input ports. Takes memory for them.
pub fn given_bits(alloc: Global, m: &Machine, held: &[bool]) -> Result<Vec<bool>, AllocError>
    requires { length held.now ≡ held_count m.now }
    ensures length { IfOk result (λ v. length v.items ≡ length (given_names m.now)) }
    ensures values { IfOk result (λ v. values_at (given_names m.now) v.items (held_names m.now) ≡ held.now) }
{
    let names = names_with(alloc, m, Role::Input)?;
    let clock = m.clock();
    let mut given = Vec::new(alloc);
    let mut taken = 0;
    for name in &names {
        if is_clock(clock, name) {
            given.push(false)?;
        } else {
            given.push(held[taken])?;
            taken += 1;
        }
    }
    given.extend_from_slice(&held[taken..])?;
    Ok(given)
}
