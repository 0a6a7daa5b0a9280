// Free bits that stand where none may.
ghost use Rattle.std.specs.Prelude.{◌≡◌, ◌∷◌, [], ℕ, List, map, false, IfOk, MatchOption};
ghost use Rattle.vlsi_base.specs.declared.name.Name.{Name};
ghost use Rattle.vlsi_base.specs.Tree.{view};
ghost use Rattle.source_checks.specs.Symbols.{symbols, names_in, find};
ghost use Rattle.source_checks.specs.Drivers.{target_names};
ghost use Rattle.source_checks.specs.Lines.{first_line};
ghost use Rattle.vbe_text.specs.Source.{guarded_view, choice_view, assignment_view, statement_view, source_view};
ghost use Rattle.vbe_free.specs.Filled.{free_lines, alternatives_free, choice_free, block_free, is_output, is_one_unread, may_be_free, source_reads, misplaced, each_misplaced, free_forms};

use crate::reading::is_read;
use crate::tokens::FREE_NAME;
use source_checks::{
    Assignment, Choice, DesignFile, Guarded, Role, Selection, Statement, SymbolTable, Target,
};
use std::alloc::{AllocError, Global};
use vlsi_base::{ParsedExpr, Range};

/// The line of a free bit, if the value is one.
pub fn free_line(value: &ParsedExpr) -> Option<u32>
    ensures { result ≡ first_line (free_lines (view value.now)) }
{
    match value {
        ParsedExpr::Name(name, line) => {
            if name.as_bytes() == FREE_NAME.as_bytes() {
                Some(*line)
            } else {
                None
            }
        }
        ParsedExpr::Chain(_, first, others) => {
            if others.is_empty() {
                free_line(first)
            } else {
                None
            }
        }
        _ => None,
    }
}

fn alternatives_line(alternatives: &[Guarded]) -> Option<u32>
    ensures { result ≡ first_line (alternatives_free (map guarded_view alternatives.now)) }
{
    for guarded in alternatives {
        if let Some(line) = free_line(&guarded.value) {
            return Some(line);
        }
    }
    None
}

/// The line of the first free bit of a choice.
fn choice_line(choice: &Choice) -> Option<u32>
    ensures { result ≡ first_line (choice_free (choice_view choice.now)) }
{
    match alternatives_line(choice.alternatives.as_slice()) {
        Some(line) => Some(line),
        None => free_line(&choice.otherwise),
    }
}

/// The number of a name's bit, where it has one bit: none in a number for a name without a range.
fn only_bit(range: Option<Range>) -> Option<Option<u32>>
    ensures { (text : List ℕ) → MatchOption result ((read : List Name) → is_one_unread read (names_in text range) ≡ false)
        (λ bit. names_in text range ≡ record { text = text; bit = bit } ∷ []) }
{
    match range {
        None => Some(None),
        Some(range) => {
            if range.left == range.right {
                Some(Some(range.left))
            } else {
                None
            }
        }
    }
}

/// The number of the bit that a target drives, where it drives one bit.
fn target_bit(table: &SymbolTable, target: &Target) -> Option<Option<u32>>
    ensures { MatchOption result ((read : List Name) → is_one_unread read (target_names table.now target.now) ≡ false)
        (λ bit. target_names table.now target.now ≡ record { text = target.now.name; bit = bit } ∷ []) }
{
    match target.selection {
        Selection::Whole => match table.find(target.name.as_bytes()) {
            Some(symbol) => only_bit(symbol.range),
            None => None,
        },
        Selection::Bit(k) => Some(Some(k)),
        Selection::Bits(range) => only_bit(Some(range)),
    }
}

/// Whether a name is that of an output.
fn is_output(table: &SymbolTable, text: &[u8]) -> bool
    ensures { result ≡ is_output (find table.now text.now) }
{
    match table.find(text) {
        Some(symbol) => symbol.role == Role::Output,
        None => false,
    }
}

/// Whether what is assigned to a target may be left free.
fn may_be_free(table: &SymbolTable, statements: &[Statement], target: &Target) -> bool
    ensures { result ≡ may_be_free table.now (source_reads table.now (map statement_view statements.now)) target.now }
{
    let text = target.name.as_bytes();
    if !is_output(table, text) {
        return false;
    }
    match target_bit(table, target) {
        Some(bit) => !is_read(table, statements, text, bit),
        None => false,
    }
}

/// The line of the first free bit of a block.
fn block_line(assignments: &[Assignment]) -> Option<u32>
    ensures { result ≡ first_line (block_free (map assignment_view assignments.now)) }
{
    for assignment in assignments {
        if let Some(line) = choice_line(&assignment.choice) {
            return Some(line);
        }
    }
    None
}

/// The line of the first free bit of a statement that stands where none may.
fn statement_line(
    table: &SymbolTable,
    statements: &[Statement],
    statement: &Statement,
) -> Option<u32>
    ensures { result ≡ first_line (misplaced table.now (source_reads table.now (map statement_view statements.now)) (statement_view statement.now)) }
{
    match statement {
        Statement::Assert(_) => None,
        Statement::Assign(assignment) => match choice_line(&assignment.choice) {
            Some(line) => {
                if may_be_free(table, statements, &assignment.target) {
                    None
                } else {
                    Some(line)
                }
            }
            None => None,
        },
        Statement::Block(block) => block_line(block.assignments.as_slice()),
    }
}

fn statements_line(table: &SymbolTable, statements: &[Statement]) -> Option<u32>
    ensures { result ≡ first_line (each_misplaced table.now (source_reads table.now (map statement_view statements.now))
        (map statement_view statements.now)) }
{
    for statement in statements {
        if let Some(line) = statement_line(table, statements, statement) {
            return Some(line);
        }
    }
    None
}

/// The line of the first free bit that stands where none may. Takes memory for the declared names.
pub fn misplaced(alloc: Global, design: &DesignFile) -> Result<Option<u32>, AllocError>
    ensures { IfOk result (λ line. line ≡ first_line (free_forms (symbols design.now) (source_view design.now))) }
{
    let table = SymbolTable::new(alloc, design)?;
    Ok(statements_line(&table, design.statements.as_slice()))
}
