// Formulas of expressions, one for each bit from the left. A walk goes only as deep as parentheses nest.
ghost use Rattle.std.specs.Prelude.{◌≡◌, ◌++◌, ◌∷◌, [], Some, map, IfOk, OnOk};
ghost use Rattle.vlsi_base.specs.Tree.{view as tree};
ghost use Rattle.bool_expr.specs.View.{view};
ghost use Rattle.bool_expr.specs.Expression.{constant};
ghost use Rattle.machine_core.specs.Order.{AllDifferent};
ghost use Rattle.source_checks.specs.Symbols.{all_names, find, names_in};
ghost use Rattle.source_checks.specs.Formula.{formulas, numbered, leaf as leaf_of, names_of_found, digit_value, low_bits, literal_bits};
ghost use Rattle.source_bits.specs.Numbering.{named_bit, LiesWithin};
ghost use Rattle.source_bits.specs.Formulas.{leaf_in, folded_bits};

use crate::Numbers;
use crate::ranges::{Declared, bits_in, number_in};
use crate::vectors::{one, operate, opposites};
use bool_expr::Expr;
use std::alloc::{AllocError, Global};
use vlsi_base::{Operator, ParsedExpr, Radix, Range};

/// A bit of a name: a constant for a supply, and else the variable of its number.
fn leaf(total: u32, declared: Option<Declared>, text: &[u8], bit: Option<u32>) -> Expr
    requires { LiesWithin total declared }
    ensures { view result ≡ leaf_in total declared (named_bit text.now bit) }
{
    if text == b"vdd".as_slice() {
        Expr::Const(true)
    } else if text == b"vss".as_slice() {
        Expr::Const(false)
    } else {
        Expr::Var(number_in(total, declared, bit))
    }
}

fn leaves(
    alloc: Global,
    total: u32,
    declared: Option<Declared>,
    text: &[u8],
    bits: &[Option<u32>],
) -> Result<Vec<Expr>, AllocError>
    requires { LiesWithin total declared }
    ensures { IfOk result (λ made. map view made.items ≡ map (λ b. leaf_in total declared (named_bit text.now b)) bits.now) }
{
    let mut made = Vec::new(alloc);
    for bit in bits {
        made.push(leaf(total, declared, text, *bit))?;
    }
    Ok(made)
}

/// The bits of a name in a range.
fn range_bits(
    alloc: Global,
    numbers: &Numbers,
    text: &[u8],
    range: Option<Range>,
) -> Result<Vec<Expr>, AllocError>
    requires { AllDifferent (map (λ s. s.text) numbers.now) }
    ensures { IfOk result (λ made. map view made.items ≡ map (numbered (all_names numbers.now)) (map leaf_of (names_in text.now range))) }
{
    let bits = bits_in(alloc, range)?;
    let declared = numbers.declared(text);
    let made = leaves(alloc, numbers.total(), declared, text, &bits)?;
    Ok(made)
}

/// The bits of a whole name: none where it isn't declared.
fn name_bits(alloc: Global, numbers: &Numbers, text: &[u8]) -> Result<Vec<Expr>, AllocError>
    requires { AllDifferent (map (λ s. s.text) numbers.now) }
    ensures { IfOk result (λ made. map view made.items ≡ map (numbered (all_names numbers.now)) (map leaf_of (names_of_found (find numbers.now text.now)))) }
{
    match numbers.declared(text) {
        Some(declared) => {
            let made = range_bits(alloc, numbers, text, declared.range)?;
            Ok(made)
        }
        None => Ok(Vec::new(alloc)),
    }
}

/// One bit of a name.
fn index_bits(
    alloc: Global,
    numbers: &Numbers,
    text: &[u8],
    k: u32,
) -> Result<Vec<Expr>, AllocError>
    requires { AllDifferent (map (λ s. s.text) numbers.now) }
    ensures { IfOk result (λ made. map view made.items ≡ map (numbered (all_names numbers.now)) (map leaf_of (named_bit text.now (Some k) ∷ []))) }
{
    let declared = numbers.declared(text);
    let made = one(alloc, leaf(numbers.total(), declared, text, Some(k)))?;
    Ok(made)
}

fn digit_value(digit: u8) -> u8
    ensures { result ≡ digit_value digit }
{
    if digit <= b'9' {
        digit.saturating_sub(b'0')
    } else if digit <= b'F' {
        digit - 55
    } else {
        digit.saturating_sub(87)
    }
}

/// Puts the lowest `count` bits of a digit behind what is there. It goes as deep as the digit has bits.
fn push_digit(bits: &mut Vec<Expr>, count: usize, value: u8) -> Result<(), AllocError>
    ensures { OnOk result (map view bits.new.items ≡ map view bits.old.items ++ map constant (low_bits count value)) }
{
    if count == 0 {
        return Ok(());
    }
    push_digit(bits, count - 1, value / 2)?;
    bits.push(Expr::Const(value % 2 == 1))?;
    Ok(())
}

fn literal_bits(alloc: Global, radix: Radix, digits: &[u8]) -> Result<Vec<Expr>, AllocError>
    ensures { IfOk result (λ made. map view made.items ≡ map constant (literal_bits radix digits.now)) }
{
    let count = radix.digit_width();
    let mut bits = Vec::new(alloc);
    for digit in digits {
        push_digit(&mut bits, count, digit_value(*digit))?;
    }
    Ok(bits)
}

/// The formulas of an expression over the numbers of declared bits, one for each bit from the left. What an operator
/// doesn't fit is cut to the shorter operand, as the definition says.
#[cycle(bits)]
pub fn bits(alloc: Global, numbers: &Numbers, e: &ParsedExpr) -> Result<Vec<Expr>, AllocError>
    requires { AllDifferent (map (λ s. s.text) numbers.now) }
    ensures { IfOk result (λ made. map view made.items ≡ map (numbered (all_names numbers.now)) (formulas numbers.now (tree e.now))) }
{
    match e {
        ParsedExpr::Bit(bit, _) => one(alloc, Expr::Const(*bit)),
        ParsedExpr::Literal(radix, digits, _) => {
            let made = literal_bits(alloc, *radix, digits.as_bytes())?;
            Ok(made)
        }
        ParsedExpr::Name(text, _) => name_bits(alloc, numbers, text.as_bytes()),
        ParsedExpr::Index(text, _, k) => index_bits(alloc, numbers, text.as_bytes(), *k),
        ParsedExpr::Slice(text, _, range) => range_bits(
            alloc,
            numbers,
            text.as_bytes(),
            Some(*range),
        ),
        ParsedExpr::Stable(_, _) => one(alloc, Expr::Const(false)),
        ParsedExpr::Not(_, inner) => {
            let inner = bits(alloc, numbers, inner)?;
            let made = opposites(alloc, inner)?;
            Ok(made)
        }
        ParsedExpr::Binary(operator, _, left, right) => {
            let left = bits(alloc, numbers, left)?;
            let right = bits(alloc, numbers, right)?;
            let made = operate(alloc, *operator, left, right)?;
            Ok(made)
        }
        ParsedExpr::Chain(operator, first, others) => {
            let first = bits(alloc, numbers, first)?;
            let all = chain_bits(alloc, numbers, *operator, first, others)?;
            Ok(all)
        }
    }
}

#[cycle(bits)]
fn chain_bits(
    alloc: Global,
    numbers: &Numbers,
    operator: Operator,
    first: Vec<Expr>,
    others: &[(u32, ParsedExpr)],
) -> Result<Vec<Expr>, AllocError>
    requires { AllDifferent (map (λ s. s.text) numbers.now) }
    ensures { IfOk result (λ made. map view made.items ≡ folded_bits numbers.now operator (map view first.items) others.now) }
{
    let mut all = first;
    for (_, e) in others {
        let next = bits(alloc, numbers, e)?;
        all = operate(alloc, operator, all, next)?;
    }
    Ok(all)
}
