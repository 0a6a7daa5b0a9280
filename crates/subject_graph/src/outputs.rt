// What outputs show.
ghost use Rattle.std.specs.Prelude.{◌≡◌, ◌+◌, ◌*◌, ◌^◌, ◌<◌, ◌≤◌, ◌++◌, ◌∷◌, [], not, length, List, ℕ, IfOk, OnOk};
ghost use Rattle.bool_expr.specs.Support.{Knows, among};
ghost use Rattle.subject_table.specs.declared.table.Node.TheVariants as kind;
ghost use Rattle.subject_graph.specs.Subject.{is_taken as is_taken_by};
ghost use Rattle.subject_graph.specs.Stages.{ShowsBehind};

use std::alloc::{AllocError, Global};
use std::collections::BTreeSet;
use subject_table::Node;

/// Whether a number is met for the first time. Takes memory for it.
fn is_first(met: &mut BTreeSet<u32>, number: u32) -> Result<bool, AllocError>
    ensures { IfOk result (λ is_new. (before : List ℕ) → Knows met.old before
        → Knows met.new (number ∷ before) × (is_new ≡ not (among number before))) }
{
    Ok(met.insert(number)?)
}

/// Whether an output can't show its node, which is met: it is one of the inputs, which come first, or it was met before.
/// Takes memory for the number.
fn is_taken(met: &mut BTreeSet<u32>, inputs: u32, number: u32) -> Result<bool, AllocError>
    ensures { IfOk result (λ taken. (before : List ℕ) → Knows met.old before
        → Knows met.new (number ∷ before) × (taken ≡ is_taken_by inputs before number)) }
{
    let is_new = is_first(met, number)?;
    Ok(number < inputs || !is_new)
}

/// Puts two inverters behind one another, the first of which reads this node, and answers the number of the second. Takes
/// memory for them.
fn push_twice(nodes: &mut Vec<Node>, held: u32, number: u32) -> Result<u32, AllocError>
    requires { held + length nodes.now.items + 1 < 2 ^ 32 }
    ensures nodes { OnOk result (nodes.new.items
        ≡ nodes.old.items ++ kind.Inv number ∷ kind.Inv (held + length nodes.old.items) ∷ []) }
    ensures number { IfOk result (λ r. r ≡ held + length nodes.old.items + 1) }
{
    let first = held + nodes.len() as u32;
    nodes.push(Node::Inv(number))?;
    nodes.push(Node::Inv(first))?;
    Ok(first + 1)
}

/// The numbers that outputs show, which have these numbers: where that is one of the inputs, which come first, or an
/// output's before, it is shown through two further inverters. Takes memory for them and for the numbers.
pub(crate) fn shown_numbers(
    alloc: Global,
    nodes: &mut Vec<Node>,
    held: u32,
    inputs: u32,
    plain: &[u32],
) -> Result<Vec<u32>, AllocError>
    requires { held + length nodes.now.items + 2 * length plain.now < 2 ^ 32 }
    ensures { IfOk result (λ v. ShowsBehind nodes.old.items nodes.new.items inputs held plain.now v.items) }
{
    let mut met = BTreeSet::new(alloc);
    let mut shown = Vec::new(alloc);
    for number in plain {
        if !is_taken(&mut met, inputs, *number)? {
            shown.push(*number)?;
            continue;
        }
        let root = push_twice(nodes, held, *number)?;
        shown.push(root)?;
    }
    Ok(shown)
}
