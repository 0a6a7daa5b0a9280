// The clock that a guard names, and the clock of a text.
ghost use Rattle.std.specs.Prelude.{◌≡◌, Bool, Some, map, length, IfOk};
ghost use Rattle.std.specs.Option.{option_copied};
ghost use Rattle.vlsi_base.specs.Tree.{view};
ghost use Rattle.source_checks.specs.Places.{in_statements};
ghost use Rattle.source_checks.specs.Clock.{may_clock, steady_names, clocks_among, is_single, none_reads, clock_of, statement_clocks, first_text};
ghost use Rattle.source_clock.specs.Clocking.{only_text};

use crate::guards::{further, is_clock, parts, steady_name};
use crate::reads::clock_line;
use source_checks::{Role, Statement, Symbol, SymbolTable};
use std::alloc::{AllocError, Global};
use vlsi_base::{ParsedExpr, Text, is_supply};

/// Whether a name can be a clock: an input of one bit that is no supply.
fn may_clock(symbol: Option<&Symbol>) -> bool
    ensures { result ≡ may_clock (option_copied symbol.entry) }
{
    match symbol {
        None => false,
        Some(symbol) => match symbol.role {
            Role::Input => symbol.range.is_none() && !is_supply(symbol.text.as_bytes()),
            Role::Output | Role::Both | Role::Inner | Role::Register => false,
        },
    }
}

/// The name whose `stable` is turned round among the parts, if there is exactly one such part.
fn only_steady<'a>(parts: &[&'a ParsedExpr]) -> Option<&'a Text>
    ensures { option_copied result ≡ only_text (steady_names (map (λ r. view r.now) parts.now)) }
{
    let mut found = None;
    for part in parts {
        if let Some(text) = steady_name(part) {
            if found.is_some() {
                return None;
            }
            found = Some(text);
        }
    }
    found
}

/// How many of the parts are the clock.
fn clock_count(parts: &[&ParsedExpr], clock: &[u8]) -> usize
    ensures { result ≡ length (clocks_among clock.now (map (λ r. view r.now) parts.now)) }
{
    let mut count = 0;
    for part in parts {
        if is_clock(part, clock) {
            count += 1;
        }
    }
    count
}

/// Whether no condition reads the clock or has a `stable`.
fn none_reads(clock: &Text, conditions: &[&ParsedExpr]) -> bool
    ensures { result ≡ none_reads (Some clock.now) (map (λ r. view r.now) conditions.now) }
{
    for condition in conditions {
        if clock_line(Some(clock), condition).is_some() {
            return false;
        }
    }
    true
}

/// The clock of a guard: the name of which one part is that name and one turns its `stable` round, if nothing else in
/// the guard reads it. Takes memory for the guard's parts.
pub fn clock_of<'a>(
    alloc: Global,
    table: &SymbolTable,
    guard: &'a ParsedExpr,
) -> Result<Option<&'a Text>, AllocError>
    ensures { IfOk result (λ clock. option_copied clock ≡ clock_of table.now (view guard.now)) }
{
    let Some(parts) = parts(alloc, guard)? else {
        return Ok(None);
    };
    let Some(clock) = only_steady(&parts) else {
        return Ok(None);
    };
    if !may_clock(table.find(clock.as_bytes())) {
        return Ok(None);
    }
    if clock_count(&parts, clock.as_bytes()) != 1 {
        return Ok(None);
    }
    let conditions = further(alloc, &parts, clock.as_bytes())?;
    if none_reads(clock, &conditions) {
        Ok(Some(clock))
    } else {
        Ok(None)
    }
}

fn clock_of_statement<'a>(
    alloc: Global,
    table: &SymbolTable,
    statement: &'a Statement,
) -> Result<Option<&'a Text>, AllocError>
    ensures { IfOk result (λ clock. option_copied clock ≡ first_text (statement_clocks table.now statement.now)) }
{
    match statement {
        Statement::Assert(_) => Ok(None),
        Statement::Assign(_) => Ok(None),
        Statement::Block(block) => clock_of(alloc, table, &block.guard),
    }
}

/// The clock of a text: that of its first guard which has one. Takes memory for the parts of a guard.
pub fn clock<'a>(
    alloc: Global,
    table: &SymbolTable,
    statements: &'a [Statement],
) -> Result<Option<&'a Text>, AllocError>
    ensures { IfOk result (λ clock. option_copied clock ≡ first_text (in_statements (statement_clocks table.now) statements.now)) }
{
    for statement in statements {
        let found = clock_of_statement(alloc, table, statement)?;
        if let Some(text) = found {
            return Ok(Some(text));
        }
    }
    Ok(None)
}
