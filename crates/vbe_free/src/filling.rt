// A source with a bit in place of each that it leaves free.
ghost use Rattle.std.specs.Prelude.{◌≡◌, map, IfOk};
ghost use Rattle.vlsi_base.specs.Tree.{view};
ghost use Rattle.vbe_text.specs.Source.{guarded_view, choice_view, assignment_view, block_view, statement_view, source_view};
ghost use Rattle.vbe_free.specs.Filled.{filled_value, filled_guarded, filled_choice, filled_assignment, filled_statement, filled};

use crate::misplaced::free_line;
use source_checks::{
    Assignment, Assignments, BlockStatement, Choice, DesignFile, Guarded, GuardedList, Statement,
    Statements,
};
use std::alloc::{AllocError, Global};
use vlsi_base::ParsedExpr;

fn filled_value(value: ParsedExpr, bit: bool) -> ParsedExpr
    ensures { view result ≡ filled_value bit (view value) }
{
    match free_line(&value) {
        Some(line) => ParsedExpr::Bit(bit, line),
        None => value,
    }
}

fn filled_guarded(guarded: Guarded, bit: bool) -> Guarded
    ensures { guarded_view result ≡ filled_guarded bit (guarded_view guarded) }
{
    Guarded {
        value: filled_value(guarded.value, bit),
        condition: guarded.condition,
        line: guarded.line,
    }
}

fn filled_alternatives(
    alloc: Global,
    alternatives: GuardedList,
    bit: bool,
) -> Result<Vec<Guarded>, AllocError>
    ensures { IfOk result (λ v. map guarded_view v.items ≡ map (λ g. filled_guarded bit (guarded_view g)) alternatives) }
{
    let mut made = Vec::new(alloc);
    for guarded in alternatives.into_vec() {
        made.push(filled_guarded(guarded, bit))?;
    }
    Ok(made)
}

fn filled_choice(alloc: Global, choice: Choice, bit: bool) -> Result<Choice, AllocError>
    ensures { IfOk result (λ c. choice_view c ≡ filled_choice bit (choice_view choice)) }
{
    let alternatives = filled_alternatives(alloc, choice.alternatives, bit)?;
    Ok(Choice {
        alternatives: GuardedList::new(alternatives),
        otherwise: filled_value(choice.otherwise, bit),
    })
}

fn filled_assignment(
    alloc: Global,
    assignment: Assignment,
    bit: bool,
) -> Result<Assignment, AllocError>
    ensures { IfOk result (λ a. assignment_view a ≡ filled_assignment bit (assignment_view assignment)) }
{
    let choice = filled_choice(alloc, assignment.choice, bit)?;
    Ok(Assignment {
        target: assignment.target,
        choice,
    })
}

fn filled_assignments(
    alloc: Global,
    assignments: Assignments,
    bit: bool,
) -> Result<Vec<Assignment>, AllocError>
    ensures { IfOk result (λ v. map assignment_view v.items ≡ map (λ a. filled_assignment bit (assignment_view a)) assignments) }
{
    let mut made = Vec::new(alloc);
    for assignment in assignments.into_vec() {
        made.push(filled_assignment(alloc, assignment, bit)?)?;
    }
    Ok(made)
}

fn filled_block(
    alloc: Global,
    block: BlockStatement,
    bit: bool,
) -> Result<BlockStatement, AllocError>
    ensures { IfOk result (λ b. statement_view (Statement.Block b) ≡ filled_statement bit (statement_view (Statement.Block block))) }
{
    let assignments = filled_assignments(alloc, block.assignments, bit)?;
    Ok(BlockStatement {
        guard: block.guard,
        line: block.line,
        assignments: Assignments::new(assignments),
    })
}

fn filled_statement(alloc: Global, statement: Statement, bit: bool) -> Result<Statement, AllocError>
    ensures { IfOk result (λ s. statement_view s ≡ filled_statement bit (statement_view statement)) }
{
    match statement {
        Statement::Assert(parsed) => Ok(Statement::Assert(parsed)),
        Statement::Assign(assignment) => {
            let filled = filled_assignment(alloc, assignment, bit)?;
            Ok(Statement::Assign(filled))
        }
        Statement::Block(block) => {
            let filled = filled_block(alloc, block, bit)?;
            Ok(Statement::Block(filled))
        }
    }
}

fn filled_statements(
    alloc: Global,
    statements: Statements,
    bit: bool,
) -> Result<Vec<Statement>, AllocError>
    ensures { IfOk result (λ v. map statement_view v.items ≡ map (λ s. filled_statement bit (statement_view s)) statements) }
{
    let mut made = Vec::new(alloc);
    for statement in statements.into_vec() {
        made.push(filled_statement(alloc, statement, bit)?)?;
    }
    Ok(made)
}

/// The source with this bit in place of each that it leaves free. Takes memory for its statements.
pub fn filled_source(alloc: Global, design: DesignFile, bit: bool) -> Result<DesignFile, AllocError>
    ensures { IfOk result (λ made. source_view made ≡ filled bit (source_view design)) }
{
    let statements = filled_statements(alloc, design.statements, bit)?;
    Ok(DesignFile {
        entity: design.entity,
        declarations: design.declarations,
        statements: Statements::new(statements),
    })
}
