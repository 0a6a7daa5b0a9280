// Guards without the text's clock, and the clock where it may not stand.
ghost use Rattle.std.specs.Prelude.{◌≡◌, map, IfOk};
ghost use Rattle.std.specs.Option.{option_copied};
ghost use Rattle.source_checks.specs.Lines.{first_line};
ghost use Rattle.source_checks.specs.Places.{in_statements};
ghost use Rattle.source_checks.specs.Symbols.{symbols};
ghost use Rattle.source_checks.specs.Clock.{is_same_clock, statement_clock_lines, all_clock_lines};
ghost use Rattle.source_clock.specs.Clocking.{block_clock_lines};

use crate::clocks::{clock, clock_of};
use crate::reads::{clock_line, clock_line_in_assignment, clock_line_in_assignments};
use source_checks::{BlockStatement, DesignFile, Statement, SymbolTable};
use std::alloc::{AllocError, Global};
use vlsi_base::Text;

fn is_same_clock(clock: Option<&Text>, other: Option<&Text>) -> bool
    ensures { result ≡ is_same_clock (option_copied clock.entry) (option_copied other.entry) }
{
    match clock {
        None => false,
        Some(clock) => match other {
            None => false,
            Some(other) => clock.as_bytes() == other.as_bytes(),
        },
    }
}

/// The first line at fault in a block: its own where its guard hasn't the text's clock, or one of its assignments.
fn block_fault(
    alloc: Global,
    table: &SymbolTable,
    clock: Option<&Text>,
    block: &BlockStatement,
) -> Result<Option<u32>, AllocError>
    ensures { IfOk result (λ line. line ≡ first_line (block_clock_lines table.now (option_copied clock.entry) block.now)) }
{
    let own = clock_of(alloc, table, &block.guard)?;
    if !is_same_clock(clock, own) {
        return Ok(Some(block.line));
    }
    Ok(clock_line_in_assignments(clock, block.assignments.as_slice()))
}

fn statement_fault(
    alloc: Global,
    table: &SymbolTable,
    clock: Option<&Text>,
    statement: &Statement,
) -> Result<Option<u32>, AllocError>
    ensures { IfOk result (λ line. line ≡ first_line (statement_clock_lines table.now (option_copied clock.entry) statement.now)) }
{
    match statement {
        Statement::Assert(e) => Ok(clock_line(clock, e)),
        Statement::Assign(assignment) => Ok(clock_line_in_assignment(clock, assignment)),
        Statement::Block(block) => block_fault(alloc, table, clock, block),
    }
}

fn statements_fault(
    alloc: Global,
    table: &SymbolTable,
    clock: Option<&Text>,
    statements: &[Statement],
) -> Result<Option<u32>, AllocError>
    ensures { IfOk result (λ line. line ≡ first_line (in_statements (statement_clock_lines table.now (option_copied clock.entry)) statements.now)) }
{
    for statement in statements {
        let found = statement_fault(alloc, table, clock, statement)?;
        if let Some(line) = found {
            return Ok(Some(line));
        }
    }
    Ok(None)
}

/// The line of the first guard that hasn't the text's clock, or of the first read of the clock or `stable` outside of a
/// guard, in file order. Takes memory for the parts of a guard.
pub fn clock_fault(
    alloc: Global,
    table: &SymbolTable,
    design: &DesignFile,
) -> Result<Option<u32>, AllocError>
    requires { table.now ≡ symbols design.now }
    ensures { IfOk result (λ line. line ≡ first_line (all_clock_lines design.now)) }
{
    let statements = design.statements.as_slice();
    let clock = clock(alloc, table, statements)?;
    statements_fault(alloc, table, clock, statements)
}
