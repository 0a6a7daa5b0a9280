// A bit in place of a free one.
ghost use Rattle.std.specs.Prelude.{◌≡◌, map, IfOk};
ghost use Rattle.vlsi_base.specs.Tree.{view, folded, operand_of};
ghost use Rattle.free_tokens.specs.Filled.{free_line, filled_value};

use crate::tokens::FREE_NAME;
use std::alloc::{AllocError, Global};
use vlsi_base::{Operator, ParsedExpr};

// Operands joined by one operator.
fn chain(
    alloc: Global,
    operator: Operator,
    first: ParsedExpr,
    others: Vec<(u32, ParsedExpr)>,
) -> Result<ParsedExpr, AllocError>
    ensures { IfOk result (λ made. view made ≡ folded operator (view first) (map operand_of others.items)) }
{
    let first = Box::new(alloc, first)?;
    Ok(ParsedExpr::Chain(operator, first, others))
}

#[cycle(copy)]
fn copied_operands(
    alloc: Global,
    operands: &[(u32, ParsedExpr)],
) -> Result<Vec<(u32, ParsedExpr)>, AllocError>
    ensures { IfOk result (λ made. map operand_of made.items ≡ map operand_of operands.now) }
{
    let mut made = Vec::new(alloc);
    for (line, e) in operands {
        let copy = copied_value(alloc, e)?;
        made.push((*line, copy))?;
    }
    Ok(made)
}

/// The same expression on this allocator. Takes memory for it.
#[cycle(copy)]
pub fn copied_value(alloc: Global, e: &ParsedExpr) -> Result<ParsedExpr, AllocError>
    ensures { IfOk result (λ made. view made ≡ view e.now) }
{
    match e {
        ParsedExpr::Bit(bit, line) => Ok(ParsedExpr::Bit(*bit, *line)),
        ParsedExpr::Literal(radix, digits, line) => {
            Ok(ParsedExpr::Literal(*radix, digits.copy(alloc)?, *line))
        }
        ParsedExpr::Name(text, line) => Ok(ParsedExpr::Name(text.copy(alloc)?, *line)),
        ParsedExpr::Index(text, line, n) => Ok(ParsedExpr::Index(text.copy(alloc)?, *line, *n)),
        ParsedExpr::Slice(text, line, range) => {
            Ok(ParsedExpr::Slice(text.copy(alloc)?, *line, *range))
        }
        ParsedExpr::Stable(text, line) => Ok(ParsedExpr::Stable(text.copy(alloc)?, *line)),
        ParsedExpr::Not(line, inner) => {
            let inner = copied_value(alloc, inner)?;
            Ok(ParsedExpr::Not(*line, Box::new(alloc, inner)?))
        }
        ParsedExpr::Binary(operator, line, left, right) => {
            let left = Box::new(alloc, copied_value(alloc, left)?)?;
            let right = Box::new(alloc, copied_value(alloc, right)?)?;
            Ok(ParsedExpr::Binary(*operator, *line, left, right))
        }
        ParsedExpr::Chain(operator, first, others) => {
            let first = copied_value(alloc, first)?;
            let others = copied_operands(alloc, others)?;
            let made = chain(alloc, *operator, first, others)?;
            Ok(made)
        }
    }
}

// The line of a free bit, where it is all that is assigned.
fn free_line(e: &ParsedExpr) -> Option<u32>
    ensures { result ≡ free_line (view e.now) }
{
    match e {
        ParsedExpr::Name(text, line) => {
            if text.as_bytes() == FREE_NAME.as_bytes() {
                Some(*line)
            } else {
                None
            }
        }
        ParsedExpr::Chain(_, first, others) => {
            if others.is_empty() {
                free_line(first)
            } else {
                None
            }
        }
        _ => None,
    }
}

/// What is assigned, with this bit in place of a free one, on this allocator. Takes memory for it.
pub fn filled_value(alloc: Global, e: &ParsedExpr, bit: bool) -> Result<ParsedExpr, AllocError>
    ensures { IfOk result (λ made. view made ≡ filled_value bit (view e.now)) }
{
    match free_line(e) {
        Some(line) => Ok(ParsedExpr::Bit(bit, line)),
        None => copied_value(alloc, e),
    }
}
