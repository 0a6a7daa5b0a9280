// Formulas of choices, one for each bit from the left, and the And of conditions.
ghost use Rattle.std.specs.Prelude.{◌≡◌, ◌∷◌, [], map, IfOk};
ghost use Rattle.vlsi_base.specs.Tree.{view as tree};
ghost use Rattle.bool_expr.specs.View.{view};
ghost use Rattle.bool_expr.specs.Expression.{choice as choice_of};
ghost use Rattle.machine_core.specs.Order.{AllDifferent};
ghost use Rattle.source_checks.specs.Symbols.{all_names};
ghost use Rattle.source_checks.specs.Formula.{numbered, choice_bits};
ghost use Rattle.source_checks.specs.Clock.{parts_of, steady_names, enable_of};
ghost use Rattle.source_bits.specs.Vectors.{each_two};
ghost use Rattle.source_bits.specs.Formulas.{bits_of, first_of, alternatives_of, grouped_of, all_in, condition_of};

use crate::Numbers;
use crate::formulas::bits;
use crate::vectors::{choose_bits, pair};
use bool_expr::{Expr, Gate};
use source_checks::{Choice, Guarded};
use source_clock::conditions;
use std::alloc::{AllocError, Global};
use vlsi_base::ParsedExpr;

/// The first bit, or 0 where there is none.
fn first(bits: Vec<Expr>) -> Expr
    ensures { view result ≡ first_of (map view bits.items) }
{
    match bits.into_iter().next() {
        Some(bit) => bit,
        None => Expr::Const(false),
    }
}

fn condition_bit(alloc: Global, numbers: &Numbers, e: &ParsedExpr) -> Result<Expr, AllocError>
    requires { AllDifferent (map (λ s. s.text) numbers.now) }
    ensures { IfOk result (λ made. view made ≡ condition_of numbers.now (tree e.now)) }
{
    let all = bits(alloc, numbers, e)?;
    Ok(first(all))
}

/// The bits of an alternative's value where its condition is 1, and others elsewhere.
fn guarded_bits(
    alloc: Global,
    numbers: &Numbers,
    guarded: &Guarded,
    otherwise: Vec<Expr>,
) -> Result<Vec<Expr>, AllocError>
    requires { AllDifferent (map (λ s. s.text) numbers.now) }
    ensures { IfOk result (λ made. map view made.items
        ≡ each_two (choice_of (condition_of numbers.now (tree guarded.now.condition)))
        (bits_of numbers.now (tree guarded.now.value)) (map view otherwise.items)) }
{
    let condition = condition_bit(alloc, numbers, &guarded.condition)?;
    let values = bits(alloc, numbers, &guarded.value)?;
    let made = choose_bits(alloc, &condition, values, otherwise)?;
    Ok(made)
}

fn chosen_bits(
    alloc: Global,
    numbers: &Numbers,
    alternatives: &[Guarded],
    otherwise: Vec<Expr>,
) -> Result<Vec<Expr>, AllocError>
    requires { AllDifferent (map (λ s. s.text) numbers.now) }
    ensures { IfOk result (λ made. map view made.items ≡ alternatives_of numbers.now alternatives.now (map view otherwise.items)) }
{
    let mut made = otherwise;
    let mut left = alternatives.len();
    while left > 0 {
        left -= 1;
        made = guarded_bits(alloc, numbers, &alternatives[left], made)?;
    }
    Ok(made)
}

/// The formulas of a choice over the numbers of declared bits, one for each bit from the left: the first alternative
/// whose condition is 1 counts.
pub fn choice_bits(
    alloc: Global,
    numbers: &Numbers,
    choice: &Choice,
) -> Result<Vec<Expr>, AllocError>
    requires { AllDifferent (map (λ s. s.text) numbers.now) }
    ensures { IfOk result (λ made. map view made.items ≡ map (numbered (all_names numbers.now)) (choice_bits numbers.now choice.now)) }
{
    let otherwise = bits(alloc, numbers, &choice.otherwise)?;
    let made = chosen_bits(alloc, numbers, choice.alternatives.as_slice(), otherwise)?;
    Ok(made)
}

/// The And of a bit and of conditions, grouped from the left.
fn joined(
    alloc: Global,
    numbers: &Numbers,
    first: Expr,
    others: &[&ParsedExpr],
) -> Result<Expr, AllocError>
    requires { AllDifferent (map (λ s. s.text) numbers.now) }
    ensures { IfOk result (λ made. view made ≡ grouped_of (view first) (map (λ r. condition_of numbers.now (tree r.now)) others.now)) }
{
    let mut all = first;
    for e in others {
        let next = condition_bit(alloc, numbers, e)?;
        all = pair(alloc, Gate::And, all, next)?;
    }
    Ok(all)
}

/// The And of conditions, grouped from the left: 1 where there is none.
fn all_of(alloc: Global, numbers: &Numbers, conditions: &[&ParsedExpr]) -> Result<Expr, AllocError>
    requires { AllDifferent (map (λ s. s.text) numbers.now) }
    ensures { IfOk result (λ made. view made ≡ all_in (map (λ r. condition_of numbers.now (tree r.now)) conditions.now)) }
{
    if conditions.is_empty() {
        return Ok(Expr::Const(true));
    }
    let first = condition_bit(alloc, numbers, conditions[0])?;
    let all = joined(alloc, numbers, first, &conditions[1..])?;
    Ok(all)
}

/// What a guard with this clock adds to its rise, over the numbers of declared bits.
pub(crate) fn enable(
    alloc: Global,
    numbers: &Numbers,
    clock: &[u8],
    guard: &ParsedExpr,
) -> Result<Expr, AllocError>
    requires different { AllDifferent (map (λ s. s.text) numbers.now) }
    requires steady { steady_names (parts_of (tree guard.now)) ≡ clock.now ∷ [] }
    ensures { IfOk result (λ made. view made ≡ numbered (all_names numbers.now) (enable_of numbers.now clock.now (tree guard.now))) }
{
    let conditions = conditions(alloc, guard, clock)?;
    let all = all_of(alloc, numbers, &conditions)?;
    Ok(all)
}
