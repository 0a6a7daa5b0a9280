// What a guard joins by `and`, and which of it are further conditions. Operands of one operator that stand in a chain are
// walked by a loop, so a walk goes only as deep as parentheses nest.
ghost use Rattle.std.specs.Prelude.{◌≡◌, ◌++◌, ◌∷◌, [], ◌&&◌, ◌||◌, not, is_none, map, IfOk, OnOk, IfSome, IfNone, if◌then◌else◌};
ghost use Rattle.std.specs.Option.{option_copied};
ghost use Rattle.vlsi_base.specs.Tree.{view, operand_of};
ghost use Rattle.source_checks.specs.Clock.{without_one, conjuncts, parts_of, is_name, steady_name, steady_names, conditions_among};
ghost use Rattle.source_clock.specs.Operands.{is_and, is_equal, is_one, is_plain, stable_name, is_beside_one, conjuncts_of};

use std::alloc::{AllocError, Global};
use vlsi_base::{Operator, ParsedExpr, Text};

fn is_and(operator: Operator) -> bool
    ensures { result ≡ is_and operator }
{
    operator == Operator::And
}

fn is_equal(operator: Operator) -> bool
    ensures { result ≡ is_equal operator }
{
    operator == Operator::Equal
}

/// Whether an expression is '1'.
fn is_one(e: &ParsedExpr) -> bool
    ensures { result ≡ is_one (view e.now) }
{
    match e {
        ParsedExpr::Bit(bit, _) => *bit,
        ParsedExpr::Chain(_, first, others) => others.is_empty() && is_one(first),
        _ => false,
    }
}

/// Whether an expression is the name of this text, alone.
fn is_plain(e: &ParsedExpr, wanted: &[u8]) -> bool
    ensures { result ≡ is_plain wanted.now (view e.now) }
{
    match e {
        ParsedExpr::Name(text, _) => text.as_bytes() == wanted,
        ParsedExpr::Chain(_, first, others) => others.is_empty() && is_plain(first, wanted),
        _ => false,
    }
}

/// The name whose `stable` an expression is.
fn stable_name(e: &ParsedExpr) -> Option<&Text>
    ensures { option_copied result ≡ stable_name (view e.now) }
{
    match e {
        ParsedExpr::Stable(text, _) => Some(text),
        ParsedExpr::Chain(_, first, others) => {
            if others.is_empty() {
                stable_name(first)
            } else {
                None
            }
        }
        _ => None,
    }
}

/// The name whose `stable` an expression turns round.
pub(crate) fn steady_name(e: &ParsedExpr) -> Option<&Text>
    ensures { option_copied result ≡ steady_name (view e.now) }
{
    match e {
        ParsedExpr::Not(_, inner) => stable_name(inner),
        ParsedExpr::Chain(_, first, others) => {
            if others.is_empty() {
                steady_name(first)
            } else {
                None
            }
        }
        _ => None,
    }
}

/// Whether a relation of two expressions is that of this name with '1', on whichever side the '1' stands.
fn is_beside_one(left: &ParsedExpr, right: &ParsedExpr, wanted: &[u8]) -> bool
    ensures { result ≡ is_beside_one wanted.now (view left.now) (view right.now) }
{
    if is_one(left) {
        is_plain(right, wanted)
    } else {
        is_one(right) && is_plain(left, wanted)
    }
}

/// Whether a part is this clock itself, perhaps in a relation with '1'.
pub(crate) fn is_clock(e: &ParsedExpr, clock: &[u8]) -> bool
    ensures { result ≡ is_name clock.now (view e.now) }
{
    match e {
        ParsedExpr::Name(text, _) => text.as_bytes() == clock,
        ParsedExpr::Binary(operator, _, left, right) => {
            is_equal(*operator) && is_beside_one(left, right, clock)
        }
        ParsedExpr::Chain(operator, first, others) => {
            if others.is_empty() {
                return is_clock(first, clock);
            }
            if !is_equal(*operator) {
                return false;
            }
            if others.len() > 1 {
                return false;
            }
            is_beside_one(first, &others[0].1, clock)
        }
        _ => false,
    }
}

/// The expression without a relation with '1' on its right. None for a chain of several relations, as `a = b = c`, which no
/// text has: what stands before its last operand is no expression in memory. No part of it turns a `stable` round.
fn without_one<'a>(e: &'a ParsedExpr) -> Option<&'a ParsedExpr>
    ensures some { IfSome result (λ r. view r.now ≡ without_one (view e.now)) }
    ensures none { IfNone result (steady_names (parts_of (view e.now)) ≡ []) }
{
    match e {
        ParsedExpr::Binary(operator, _, left, right) => {
            if is_equal(*operator) && is_one(right) {
                Some(left)
            } else {
                Some(e)
            }
        }
        ParsedExpr::Chain(operator, first, others) => {
            if others.is_empty() {
                return without_one(first);
            }
            if !is_equal(*operator) {
                return Some(e);
            }
            if others.len() > 1 {
                return None;
            }
            if is_one(&others[0].1) {
                Some(first)
            } else {
                Some(e)
            }
        }
        _ => Some(e),
    }
}

/// Puts what an expression joins by `and` behind what is there.
#[cycle(collect)]
fn collect<'a>(found: &mut Vec<&'a ParsedExpr>, e: &'a ParsedExpr) -> Result<(), AllocError>
    ensures { OnOk result (map (λ r. view r.now) found.new.items ≡ map (λ r. view r.now) found.old.items ++ conjuncts (view e.now)) }
{
    match e {
        ParsedExpr::Binary(operator, _, left, right) => {
            if is_and(*operator) {
                collect(found, left)?;
                collect(found, right)?;
                return Ok(());
            }
            found.push(e)?;
            Ok(())
        }
        ParsedExpr::Chain(operator, first, others) => {
            if others.is_empty() {
                return collect(found, first);
            }
            if is_and(*operator) {
                collect(found, first)?;
                collect_all(found, others)?;
                return Ok(());
            }
            found.push(e)?;
            Ok(())
        }
        ParsedExpr::Bit(_, _)
        | ParsedExpr::Literal(_, _, _)
        | ParsedExpr::Name(_, _)
        | ParsedExpr::Index(_, _, _)
        | ParsedExpr::Slice(_, _, _)
        | ParsedExpr::Stable(_, _)
        | ParsedExpr::Not(_, _) => {
            found.push(e)?;
            Ok(())
        }
    }
}

#[cycle(collect)]
fn collect_all<'a>(
    found: &mut Vec<&'a ParsedExpr>,
    others: &'a [(u32, ParsedExpr)],
) -> Result<(), AllocError>
    ensures { OnOk result (map (λ r. view r.now) found.new.items ≡ map (λ r. view r.now) found.old.items ++ conjuncts_of (map operand_of others.now)) }
{
    for (_, e) in others {
        collect(found, e)?;
    }
    Ok(())
}

/// What is joined by `and` in a guard, through parentheses, from the left, without an outer `= '1'`. None for a chain of
/// several relations: it turns no `stable` round.
pub(crate) fn parts(
    alloc: Global,
    guard: &ParsedExpr,
) -> Result<Option<Vec<&ParsedExpr>>, AllocError>
    ensures some { IfOk result (λ o. IfSome o (λ parts. map (λ r. view r.now) parts.items ≡ parts_of (view guard.now))) }
    ensures none { IfOk result (λ o. IfNone o (steady_names (parts_of (view guard.now)) ≡ [])) }
{
    let Some(joined) = without_one(guard) else {
        return Ok(None);
    };
    let mut found = Vec::new(alloc);
    collect(&mut found, joined)?;
    Ok(Some(found))
}

/// Those of the parts that are neither the clock nor turn a `stable` round.
pub(crate) fn further<'a>(
    alloc: Global,
    parts: &[&'a ParsedExpr],
    clock: &[u8],
) -> Result<Vec<&'a ParsedExpr>, AllocError>
    ensures { IfOk result (λ found. map (λ r. view r.now) found.items ≡ conditions_among clock.now (map (λ r. view r.now) parts.now)) }
{
    let mut found = Vec::new(alloc);
    for part in parts {
        if !is_clock(part, clock) && steady_name(part).is_none() {
            found.push(*part)?;
        }
    }
    Ok(found)
}

/// The parts of a guard with this clock that are neither the clock nor turn its `stable` round, from the left. Takes memory
/// for the guard's parts.
pub fn conditions<'a>(
    alloc: Global,
    guard: &'a ParsedExpr,
    clock: &[u8],
) -> Result<Vec<&'a ParsedExpr>, AllocError>
    requires { steady_names (parts_of (view guard.now)) ≡ clock.now ∷ [] }
    ensures { IfOk result (λ found. map (λ r. view r.now) found.items ≡ conditions_among clock.now (parts_of (view guard.now))) }
{
    let parts = parts(alloc, guard)?;
    match parts {
        Some(parts) => further(alloc, &parts, clock),
        None => unreachable!(),
    }
}
