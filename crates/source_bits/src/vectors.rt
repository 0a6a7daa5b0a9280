// Vectors of expressions, one for each bit from the left, and the operators on them. Each takes its operands apart and
// copies nothing but conditions.
ghost use Rattle.std.specs.Prelude.{◌≡◌, ◌++◌, ◌∷◌, ◌≤◌, [], ℕ, List, length, map, IfOk, OnOk};
ghost use Rattle.bool_expr.specs.declared.expr.Expr.{Expr};
ghost use Rattle.bool_expr.specs.Expression.{inverse as inverse_of, pair as pair_of, choice as choice_of};
ghost use Rattle.bool_expr.specs.View.{view};
ghost use Rattle.source_bits.specs.Vectors.{each_two, all_within, equal_of, unequal_of, operator_of};

use bool_expr::{Expr, Gate, copy};
use std::alloc::{AllocError, Global};
use vlsi_base::Operator;

/// A vector of one bit.
pub(crate) fn one(alloc: Global, bit: Expr) -> Result<Vec<Expr>, AllocError>
    ensures { IfOk result (λ bits. map view bits.items ≡ view bit ∷ []) }
{
    let mut bits = Vec::new(alloc);
    bits.push(bit)?;
    Ok(bits)
}

pub(crate) fn pair(alloc: Global, gate: Gate, left: Expr, right: Expr) -> Result<Expr, AllocError>
    ensures { IfOk result (λ made. view made ≡ pair_of gate (view left) (view right)) }
{
    let left = Box::new(alloc, left)?;
    let right = Box::new(alloc, right)?;
    Ok(Expr::Pair(gate, left, right))
}

fn opposite(alloc: Global, inner: Expr) -> Result<Expr, AllocError>
    ensures { IfOk result (λ made. view made ≡ inverse_of (view inner)) }
{
    let inner = Box::new(alloc, inner)?;
    Ok(Expr::Not(inner))
}

/// A choice by a copy of the condition.
fn choose(alloc: Global, condition: &Expr, value: Expr, otherwise: Expr) -> Result<Expr, AllocError>
    ensures { IfOk result (λ made. view made ≡ choice_of (view condition.now) (view value) (view otherwise)) }
{
    let condition = copy(alloc, condition)?;
    let condition = Box::new(alloc, condition)?;
    let value = Box::new(alloc, value)?;
    let otherwise = Box::new(alloc, otherwise)?;
    Ok(Expr::Choice(condition, value, otherwise))
}

/// Each bit turned round.
pub(crate) fn opposites(alloc: Global, bits: Vec<Expr>) -> Result<Vec<Expr>, AllocError>
    ensures { IfOk result (λ made. map view made.items ≡ map inverse_of (map view bits.items)) }
{
    let mut made = Vec::new(alloc);
    for bit in bits {
        made.push(opposite(alloc, bit)?)?;
    }
    Ok(made)
}

/// Bits joined by a gate, pair by pair from the left, as far as both vectors go.
fn each_pair(
    alloc: Global,
    gate: Gate,
    left: Vec<Expr>,
    right: Vec<Expr>,
) -> Result<Vec<Expr>, AllocError>
    ensures { IfOk result (λ made. map view made.items ≡ each_two (pair_of gate) (map view left.items) (map view right.items)) }
{
    let mut made = Vec::new(alloc);
    let mut others = right.into_iter();
    for bit in left {
        let Some(other) = others.next() else {
            return Ok(made);
        };
        made.push(pair(alloc, gate, bit, other)?)?;
    }
    Ok(made)
}

/// Bits by a condition, pair by pair from the left, as far as both vectors go: those of the values where it is 1.
pub(crate) fn choose_bits(
    alloc: Global,
    condition: &Expr,
    values: Vec<Expr>,
    otherwise: Vec<Expr>,
) -> Result<Vec<Expr>, AllocError>
    ensures { IfOk result (λ made. map view made.items ≡ each_two (choice_of (view condition.now)) (map view values.items) (map view otherwise.items)) }
{
    let mut made = Vec::new(alloc);
    let mut others = otherwise.into_iter();
    for value in values {
        let Some(other) = others.next() else {
            return Ok(made);
        };
        made.push(choose(alloc, condition, value, other)?)?;
    }
    Ok(made)
}

/// The And of the last `count` bits, which are taken away, by halves. It goes as deep as `count` can be halved.
fn all_within(alloc: Global, bits: &mut Vec<Expr>, count: usize) -> Result<Expr, AllocError>
    ensures rest { OnOk result ((before last : List Expr) → bits.old.items ≡ before ++ last → length last ≡ count → bits.new.items ≡ before) }
    ensures value { IfOk result (λ made. (before last : List Expr) → bits.old.items ≡ before ++ last → length last ≡ count
        → (bound : ℕ) → count ≤ bound → view made ≡ all_within bound (map view last)) }
{
    if count > 1 {
        let half = count / 2;
        let right = all_within(alloc, bits, half)?;
        let left = all_within(alloc, bits, count - half)?;
        let both = pair(alloc, Gate::And, left, right)?;
        return Ok(both);
    }
    if count == 1 {
        if let Some(bit) = bits.pop() {
            return Ok(bit);
        }
    }
    Ok(Expr::Const(true))
}

/// `=` on vectors.
fn equal(alloc: Global, left: Vec<Expr>, right: Vec<Expr>) -> Result<Expr, AllocError>
    ensures { IfOk result (λ made. view made ≡ equal_of (map view left.items) (map view right.items)) }
{
    let mut bits = each_pair(alloc, Gate::Xnor, left, right)?;
    let count = bits.len();
    let all = all_within(alloc, &mut bits, count)?;
    Ok(all)
}

/// `/=` on vectors, as a vector of one bit.
fn unequal(alloc: Global, left: Vec<Expr>, right: Vec<Expr>) -> Result<Vec<Expr>, AllocError>
    ensures { IfOk result (λ made. map view made.items ≡ unequal_of (map view left.items) (map view right.items) ∷ []) }
{
    if left.len() == 1 && right.len() == 1 {
        return each_pair(alloc, Gate::Xor, left, right);
    }
    let same = equal(alloc, left, right)?;
    let differs = opposite(alloc, same)?;
    let bits = one(alloc, differs)?;
    Ok(bits)
}

/// What an operator gives.
pub(crate) fn operate(
    alloc: Global,
    operator: Operator,
    left: Vec<Expr>,
    right: Vec<Expr>,
) -> Result<Vec<Expr>, AllocError>
    ensures { IfOk result (λ made. map view made.items ≡ operator_of operator (map view left.items) (map view right.items)) }
{
    match operator {
        Operator::And => each_pair(alloc, Gate::And, left, right),
        Operator::Or => each_pair(alloc, Gate::Or, left, right),
        Operator::Xor => each_pair(alloc, Gate::Xor, left, right),
        Operator::Xnor => each_pair(alloc, Gate::Xnor, left, right),
        Operator::Nand => each_pair(alloc, Gate::Nand, left, right),
        Operator::Nor => each_pair(alloc, Gate::Nor, left, right),
        Operator::Join => {
            let mut all = left;
            let mut behind = right;
            all.append(&mut behind)?;
            Ok(all)
        }
        Operator::Equal => {
            let same = equal(alloc, left, right)?;
            one(alloc, same)
        }
        Operator::Unequal => unequal(alloc, left, right),
    }
}
