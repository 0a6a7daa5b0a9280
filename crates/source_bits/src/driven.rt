// The bits that a text drives, each with its formulas over numbers, in file order.
ghost use Rattle.std.specs.Prelude.{◌≡◌, ◌++◌, ◌∷◌, [], ℕ, List, Some, map, IfOk, OnOk};
ghost use Rattle.std.specs.Option.{option_copied};
ghost use Rattle.vlsi_base.specs.Tree.{view as tree};
ghost use Rattle.bool_expr.specs.View.{view};
ghost use Rattle.machine_core.specs.Order.{AllDifferent};
ghost use Rattle.source_checks.specs.Symbols.{all_names, names_in};
ghost use Rattle.source_checks.specs.Formula.{place, numbered};
ghost use Rattle.source_checks.specs.Drivers.{target_names};
ghost use Rattle.source_checks.specs.Places.{in_assignments, in_statements};
ghost use Rattle.source_checks.specs.Clock.{parts_of, steady_names, enable_of, statement_clock_lines};
ghost use Rattle.source_checks.specs.Elaboration.{assignment_definitions, statement_definitions, statement_storage, stored};
ghost use Rattle.source_bits.specs.Numbering.{named_bit};
ghost use Rattle.source_bits.specs.Driven.{driven_view, stored_view, numbered_definition, numbered_storage, driven_pairs, stored_pairs, stored_in};

use crate::Numbers;
use crate::choices::{choice_bits, enable};
use crate::ranges::{bits_in, number_in};
use bool_expr::{Expr, copy};
use source_checks::{Assignment, BlockStatement, Selection, Statement, Target};
use std::alloc::{AllocError, Global};
use vlsi_base::Range;

/// A bit that an assignment outside of blocks drives: its number, and its formula over numbers.
#[derive(Drop)]
pub struct DrivenBit {
    pub bit: u32,
    pub expr: Expr,
}

/// A bit that an assignment of a block drives: its number, what it loads, and when.
#[derive(Drop)]
pub struct StoredBit {
    pub bit: u32,
    pub next: Expr,
    pub enable: Expr,
}

/// The numbers of bits of one name.
fn places(
    alloc: Global,
    numbers: &Numbers,
    text: &[u8],
    bits: &[Option<u32>],
) -> Result<Vec<u32>, AllocError>
    requires { AllDifferent (map (λ s. s.text) numbers.now) }
    ensures { IfOk result (λ made. made.items ≡ map (place (all_names numbers.now)) (map (named_bit text.now) bits.now)) }
{
    let total = numbers.total();
    let declared = numbers.declared(text);
    let mut made = Vec::new(alloc);
    for bit in bits {
        made.push(number_in(total, declared, *bit))?;
    }
    Ok(made)
}

/// The numbers of a name's bits in a range.
fn range_places(
    alloc: Global,
    numbers: &Numbers,
    text: &[u8],
    range: Option<Range>,
) -> Result<Vec<u32>, AllocError>
    requires { AllDifferent (map (λ s. s.text) numbers.now) }
    ensures { IfOk result (λ made. made.items ≡ map (place (all_names numbers.now)) (names_in text.now range)) }
{
    let bits = bits_in(alloc, range)?;
    let made = places(alloc, numbers, text, &bits)?;
    Ok(made)
}

/// The numbers of the bits that a target drives, from the left.
pub fn target_places(
    alloc: Global,
    numbers: &Numbers,
    target: &Target,
) -> Result<Vec<u32>, AllocError>
    requires { AllDifferent (map (λ s. s.text) numbers.now) }
    ensures { IfOk result (λ made. made.items ≡ map (place (all_names numbers.now)) (target_names numbers.now target.now)) }
{
    let text = target.name.as_bytes();
    match target.selection {
        Selection::Whole => match numbers.declared(text) {
            Some(declared) => {
                let made = range_places(alloc, numbers, text, declared.range)?;
                Ok(made)
            }
            None => Ok(Vec::new(alloc)),
        },
        Selection::Bit(k) => {
            let mut made = Vec::new(alloc);
            made.push(numbers.number(text, Some(k)))?;
            Ok(made)
        }
        Selection::Bits(range) => {
            let made = range_places(alloc, numbers, text, Some(range))?;
            Ok(made)
        }
    }
}

/// Puts bits with their formulas behind what is there, as far as both go.
fn push_driven(
    made: &mut Vec<DrivenBit>,
    bits: Vec<u32>,
    exprs: Vec<Expr>,
) -> Result<(), AllocError>
    ensures { OnOk result (map driven_view made.new.items ≡ map driven_view made.old.items ++ driven_pairs bits.items (map view exprs.items)) }
{
    let mut rest = exprs.into_iter();
    for bit in bits {
        let Some(expr) = rest.next() else {
            return Ok(());
        };
        made.push(DrivenBit { bit, expr })?;
    }
    Ok(())
}

fn drive(
    alloc: Global,
    numbers: &Numbers,
    made: &mut Vec<DrivenBit>,
    assignment: &Assignment,
) -> Result<(), AllocError>
    requires { AllDifferent (map (λ s. s.text) numbers.now) }
    ensures { OnOk result (map driven_view made.new.items ≡ map driven_view made.old.items
        ++ map (numbered_definition (all_names numbers.now)) (assignment_definitions numbers.now assignment.now)) }
{
    let bits = target_places(alloc, numbers, &assignment.target)?;
    let exprs = choice_bits(alloc, numbers, &assignment.choice)?;
    push_driven(made, bits, exprs)?;
    Ok(())
}

fn drive_in(
    alloc: Global,
    numbers: &Numbers,
    made: &mut Vec<DrivenBit>,
    statement: &Statement,
) -> Result<(), AllocError>
    requires { AllDifferent (map (λ s. s.text) numbers.now) }
    ensures { OnOk result (map driven_view made.new.items ≡ map driven_view made.old.items
        ++ map (numbered_definition (all_names numbers.now)) (statement_definitions numbers.now statement.now)) }
{
    match statement {
        Statement::Assert(_) => Ok(()),
        Statement::Assign(assignment) => drive(alloc, numbers, made, assignment),
        Statement::Block(_) => Ok(()),
    }
}

/// The bits that assignments outside of blocks drive, in file order, a vector from the left. Takes memory for each
/// operator of each bit.
#[tactic(auto, using(crate::proofs::DrivenBits::definitions_append))]
pub fn driven_bits(
    alloc: Global,
    numbers: &Numbers,
    statements: &[Statement],
) -> Result<Vec<DrivenBit>, AllocError>
    requires { AllDifferent (map (λ s. s.text) numbers.now) }
    ensures { IfOk result (λ made. map driven_view made.items ≡ map (numbered_definition (all_names numbers.now))
        (in_statements (statement_definitions numbers.now) statements.now)) }
{
    let mut made = Vec::new(alloc);
    for statement in statements {
        drive_in(alloc, numbers, &mut made, statement)?;
    }
    Ok(made)
}

/// Puts bits with their formulas and a copy of the enable behind what is there, as far as both go.
fn push_stored(
    alloc: Global,
    made: &mut Vec<StoredBit>,
    bits: Vec<u32>,
    exprs: Vec<Expr>,
    enable: &Expr,
) -> Result<(), AllocError>
    ensures { OnOk result (map stored_view made.new.items ≡ map stored_view made.old.items
        ++ stored_pairs (view enable.now) bits.items (map view exprs.items)) }
{
    let mut rest = exprs.into_iter();
    for bit in bits {
        let Some(next) = rest.next() else {
            return Ok(());
        };
        let enable = copy(alloc, enable)?;
        made.push(StoredBit { bit, next, enable })?;
    }
    Ok(())
}

fn store(
    alloc: Global,
    numbers: &Numbers,
    made: &mut Vec<StoredBit>,
    enable: &Expr,
    assignment: &Assignment,
) -> Result<(), AllocError>
    requires { AllDifferent (map (λ s. s.text) numbers.now) }
    ensures { OnOk result (map stored_view made.new.items ≡ map stored_view made.old.items ++ stored_in numbers.now (view enable.now) assignment.now) }
{
    let bits = target_places(alloc, numbers, &assignment.target)?;
    let exprs = choice_bits(alloc, numbers, &assignment.choice)?;
    push_stored(alloc, made, bits, exprs, enable)?;
    Ok(())
}

fn store_all(
    alloc: Global,
    numbers: &Numbers,
    made: &mut Vec<StoredBit>,
    enable: &Expr,
    assignments: &[Assignment],
) -> Result<(), AllocError>
    requires { AllDifferent (map (λ s. s.text) numbers.now) }
    ensures { OnOk result (map stored_view made.new.items ≡ map stored_view made.old.items
        ++ in_assignments (stored_in numbers.now (view enable.now)) assignments.now) }
{
    for assignment in assignments {
        store(alloc, numbers, made, enable, assignment)?;
    }
    Ok(())
}

fn store_block(
    alloc: Global,
    numbers: &Numbers,
    made: &mut Vec<StoredBit>,
    clock: &[u8],
    block: &BlockStatement,
) -> Result<(), AllocError>
    requires different { AllDifferent (map (λ s. s.text) numbers.now) }
    requires steady { steady_names (parts_of (tree block.now.guard)) ≡ clock.now ∷ [] }
    ensures { OnOk result (map stored_view made.new.items ≡ map stored_view made.old.items
        ++ map (numbered_storage (all_names numbers.now)) (stored (enable_of numbers.now clock.now (tree block.now.guard))
        (in_assignments (assignment_definitions numbers.now) block.now.assignments))) }
{
    let enable = enable(alloc, numbers, clock, &block.guard)?;
    store_all(alloc, numbers, made, &enable, block.assignments.as_slice())?;
    Ok(())
}

fn store_in(
    alloc: Global,
    numbers: &Numbers,
    made: &mut Vec<StoredBit>,
    clock: &[u8],
    statement: &Statement,
) -> Result<(), AllocError>
    requires different { AllDifferent (map (λ s. s.text) numbers.now) }
    requires clocked { statement_clock_lines numbers.now (Some clock.now) statement.now ≡ [] }
    ensures { OnOk result (map stored_view made.new.items ≡ map stored_view made.old.items
        ++ map (numbered_storage (all_names numbers.now)) (statement_storage numbers.now (Some clock.now) statement.now)) }
{
    match statement {
        Statement::Assert(_) => Ok(()),
        Statement::Assign(_) => Ok(()),
        Statement::Block(block) => store_block(alloc, numbers, made, clock, block),
    }
}

#[tactic(auto, using(crate::proofs::DrivenBits::storage_append))]
fn stored_under(
    alloc: Global,
    numbers: &Numbers,
    clock: &[u8],
    statements: &[Statement],
) -> Result<Vec<StoredBit>, AllocError>
    requires different { AllDifferent (map (λ s. s.text) numbers.now) }
    requires clocked { in_statements (statement_clock_lines numbers.now (Some clock.now)) statements.now ≡ [] }
    ensures { IfOk result (λ made. map stored_view made.items
        ≡ map (numbered_storage (all_names numbers.now))
        (in_statements (statement_storage numbers.now (Some clock.now)) statements.now)) }
{
    let mut made = Vec::new(alloc);
    for statement in statements {
        store_in(alloc, numbers, &mut made, clock, statement)?;
    }
    Ok(made)
}

/// The bits that assignments of blocks drive, in file order, a vector from the left, each with what its block's guard adds
/// to the rise of the clock: none where there is no clock. No line of the statements is at fault for the clock. Takes memory
/// for each operator of each bit.
pub fn stored_bits(
    alloc: Global,
    numbers: &Numbers,
    clock: Option<&[u8]>,
    statements: &[Statement],
) -> Result<Vec<StoredBit>, AllocError>
    requires different { AllDifferent (map (λ s. s.text) numbers.now) }
    requires clocked { in_statements (statement_clock_lines numbers.now (option_copied clock)) statements.now ≡ [] }
    ensures { IfOk result (λ made. map stored_view made.items ≡ map (numbered_storage (all_names numbers.now))
        (in_statements (statement_storage numbers.now (option_copied clock.entry)) statements.now)) }
{
    match clock {
        Some(clock) => {
            let made = stored_under(alloc, numbers, clock, statements)?;
            Ok(made)
        }
        None => Ok(Vec::new(alloc)),
    }
}
