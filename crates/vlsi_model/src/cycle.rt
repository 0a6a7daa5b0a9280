// Rings of definitions.
ghost use Rattle.std.specs.Prelude.{◌≡◌, ◌<◌, ℕ, map, length, None, IfOk, MatchOption};
ghost use Rattle.std.specs.List.{All};
ghost use Rattle.std.specs.declared.cmp.Ordering.TheVariants.{Greater};
ghost use Rattle.vlsi_base.specs.Name.{name_cmp};
ghost use Rattle.machine_core.specs.Order.{In, AllDifferent};
ghost use Rattle.source_checks.specs.Checks.{first_fault, IsCycle, DrivenOn};
ghost use Rattle.source_checks.specs.Cycles.{IsRing};
ghost use Rattle.source_checks.specs.Drivers.{drivers};
ghost use Rattle.source_checks.specs.Elaboration.{definitions};
ghost use Rattle.vlsi_model.specs.Laid.{names_defined};
ghost use Rattle.vlsi_model.specs.Numbered.{name_at};
ghost use Rattle.vlsi_model.specs.Ordered.{IsNodeRing, IsDrivenIn};
ghost use Rattle.vlsi_model.specs.Sources.{IsSourceOf};

use crate::build::driven_numbers;
use crate::equations::push_names;
use crate::source::Source;
use source_bits::{Numbers, target_places};
use source_checks::{DesignFile, Statement};
use std::alloc::{AllocError, Global};
use vlsi_base::{FaultKind, InputFault, Name, Names, ReadError};

/// The place of a name that none of the names is before.
fn least_place(names: &[Name]) -> usize
    requires { 0 < length names.now }
    ensures within { result < length names.now }
    ensures least { All (λ n. name_cmp (name_at names.now result) n ≡ Greater → ⊥) names.now }
{
    let mut least = 0;
    for k in 1..names.len() {
        if names[k].compare(&names[least]).is_lt() {
            least = k;
        }
    }
    least
}

/// The names of a ring, from the least one on.
fn ring_names(
    alloc: Global,
    source: &Source,
    design: &DesignFile,
    nodes: &[u32],
) -> Result<Vec<Name>, AllocError>
    requires source { IsSourceOf design.now source.now }
    requires sound { first_fault design.now ≡ None }
    requires ring { IsNodeRing design.now nodes.now }
    ensures { IfOk result (λ names. IsRing (definitions design.now) names.items) }
{
    let bits = driven_numbers(alloc, &source.driven)?;
    let mut names = Vec::new(alloc);
    push_names(alloc, &source.numbers, &bits, nodes, &mut names)?;
    let first = least_place(&names);
    names.rotate_left(first);
    Ok(names)
}

/// The line of a statement's target, if it is an assignment that drives the bit with this number.
fn line_in(
    alloc: Global,
    numbers: &Numbers,
    statement: &Statement,
    number: u32,
) -> Result<Option<u32>, AllocError>
    requires { AllDifferent (map (λ s. s.text) numbers.now) }
    ensures { IfOk result (λ found. MatchOption found ((line : ℕ) → IsDrivenIn numbers.now statement.now number line → ⊥)
        (λ line. IsDrivenIn numbers.now statement.now number line)) }
{
    match statement {
        Statement::Assert(_) => Ok(None),
        Statement::Assign(assignment) => {
            let places = target_places(alloc, numbers, &assignment.target)?;
            if places.contains(&number) {
                Ok(Some(assignment.target.line))
            } else {
                Ok(None)
            }
        }
        Statement::Block(_) => Ok(None),
    }
}

/// The line of the assignment outside of blocks that drives a bit.
fn driver_line(
    alloc: Global,
    source: &Source,
    design: &DesignFile,
    name: &Name,
) -> Result<u32, AllocError>
    requires source { IsSourceOf design.now source.now }
    requires sound { first_fault design.now ≡ None }
    requires defined { In name.now (names_defined (definitions design.now)) }
    ensures { IfOk result (λ line. DrivenOn (drivers design.now) name.now line) }
{
    let number = source.numbers.number(name.text.as_bytes(), name.bit);
    let statements = design.statements.as_slice();
    for statement in statements {
        let found = line_in(alloc, &source.numbers, statement, number)?;
        if let Some(line) = found {
            return Ok(line);
        }
    }
    unreachable!()
}

/// The fault of a ring, named from its least name on, at the line of that name's assignment.
pub fn cycle(
    alloc: Global,
    source: &Source,
    design: &DesignFile,
    nodes: &[u32],
) -> Result<ReadError, AllocError>
    requires source { IsSourceOf design.now source.now }
    requires sound { first_fault design.now ≡ None }
    requires ring { IsNodeRing design.now nodes.now }
    ensures { IfOk result (λ e. IsCycle design.now e) }
{
    let names = ring_names(alloc, source, design, nodes)?;
    let line = driver_line(alloc, source, design, &names[0])?;
    let names = Names::new(names);
    Ok(ReadError::Input(InputFault {
        line,
        kind: FaultKind::Cycle,
        names,
    }))
}
