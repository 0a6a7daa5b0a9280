// Names that aren't declared.
ghost use Rattle.std.specs.Prelude.{◌≡◌, ◌++◌, ◌∷◌, [], map, option_map};
ghost use Rattle.vlsi_base.specs.Tree.{view, operand_of};
ghost use Rattle.source_checks.specs.Places.{reads, first_unknown, in_alternatives, in_assignments, in_statements, assignment_uses, statement_uses};
ghost use Rattle.source_checks.specs.Uses.{use_of, reads_among};

use crate::symbol_table::SymbolTable;
use crate::{Assignment, Guarded, Statement};
use vlsi_base::{ParsedExpr, Text};

/// A name and the line on which it stands.
#[derive(Clone, Copy)]
pub struct Place<'a> {
    pub text: &'a Text,
    pub line: u32,
}

/// The name, unless it is declared. Takes no memory.
pub fn unknown_name<'a>(table: &SymbolTable, text: &'a Text, line: u32) -> Option<Place<'a>>
    ensures { option_map use_of result ≡ first_unknown table.now (record { text = text.now; line = line } ∷ []) }
{
    match table.find(text.as_bytes()) {
        Some(_) => None,
        None => Some(Place { text, line }),
    }
}

/// The first name of an expression that isn't declared. Takes no memory.
#[cycle(unknown)]
#[tactic(auto, using(crate::proofs::Unknowns::first_unknown_append))]
pub fn unknown_read<'a>(table: &SymbolTable, e: &'a ParsedExpr) -> Option<Place<'a>>
    ensures { option_map use_of result ≡ first_unknown table.now (reads (view e.now)) }
{
    match e {
        ParsedExpr::Bit(_, _) => None,
        ParsedExpr::Literal(_, _, _) => None,
        ParsedExpr::Name(text, line) => unknown_name(table, text, *line),
        ParsedExpr::Index(text, line, _) => unknown_name(table, text, *line),
        ParsedExpr::Slice(text, line, _) => unknown_name(table, text, *line),
        ParsedExpr::Stable(text, line) => unknown_name(table, text, *line),
        ParsedExpr::Not(_, inner) => unknown_read(table, inner),
        ParsedExpr::Binary(_, _, left, right) => match unknown_read(table, left) {
            Some(place) => Some(place),
            None => unknown_read(table, right),
        },
        ParsedExpr::Chain(_, first, others) => match unknown_read(table, first) {
            Some(place) => Some(place),
            None => unknown_among(table, others),
        },
    }
}

#[cycle(unknown)]
#[tactic(auto, using(crate::proofs::Unknowns::first_unknown_append))]
fn unknown_among<'a>(table: &SymbolTable, others: &'a [(u32, ParsedExpr)]) -> Option<Place<'a>>
    ensures { option_map use_of result ≡ first_unknown table.now (reads_among (map operand_of others.now)) }
{
    for (_, e) in others {
        if let Some(place) = unknown_read(table, e) {
            return Some(place);
        }
    }
    None
}

/// The first such name of an alternative: of its value, then of its condition.
#[tactic(auto, using(crate::proofs::Unknowns::first_unknown_append))]
fn unknown_in_guarded<'a>(table: &SymbolTable, guarded: &'a Guarded) -> Option<Place<'a>>
    ensures { option_map use_of result ≡ first_unknown table.now (reads (view guarded.now.value) ++ reads (view guarded.now.condition)) }
{
    match unknown_read(table, &guarded.value) {
        Some(place) => Some(place),
        None => unknown_read(table, &guarded.condition),
    }
}

#[tactic(auto, using(crate::proofs::Unknowns::first_unknown_append))]
fn unknown_in_alternatives<'a>(
    table: &SymbolTable,
    alternatives: &'a [Guarded],
) -> Option<Place<'a>>
    ensures { option_map use_of result ≡ first_unknown table.now (in_alternatives reads (λ line e. reads e) alternatives.now) }
{
    for guarded in alternatives {
        if let Some(place) = unknown_in_guarded(table, guarded) {
            return Some(place);
        }
    }
    None
}

#[tactic(auto, using(crate::proofs::Unknowns::first_unknown_append))]
fn unknown_in_assignment<'a>(table: &SymbolTable, assignment: &'a Assignment) -> Option<Place<'a>>
    ensures { option_map use_of result ≡ first_unknown table.now (assignment_uses assignment.now) }
{
    let target = &assignment.target;
    if let Some(place) = unknown_name(table, &target.name, target.line) {
        return Some(place);
    }
    let choice = &assignment.choice;
    match unknown_in_alternatives(table, choice.alternatives.as_slice()) {
        Some(place) => Some(place),
        None => unknown_read(table, &choice.otherwise),
    }
}

#[tactic(auto, using(crate::proofs::Unknowns::first_unknown_append))]
fn unknown_in_assignments<'a>(
    table: &SymbolTable,
    assignments: &'a [Assignment],
) -> Option<Place<'a>>
    ensures { option_map use_of result ≡ first_unknown table.now (in_assignments assignment_uses assignments.now) }
{
    for assignment in assignments {
        if let Some(place) = unknown_in_assignment(table, assignment) {
            return Some(place);
        }
    }
    None
}

#[tactic(auto, using(crate::proofs::Unknowns::first_unknown_append))]
fn unknown_in_statement<'a>(table: &SymbolTable, statement: &'a Statement) -> Option<Place<'a>>
    ensures { option_map use_of result ≡ first_unknown table.now (statement_uses statement.now) }
{
    match statement {
        Statement::Assert(e) => unknown_read(table, e),
        Statement::Assign(assignment) => unknown_in_assignment(table, assignment),
        Statement::Block(block) => match unknown_read(table, &block.guard) {
            Some(place) => Some(place),
            None => unknown_in_assignments(table, block.assignments.as_slice()),
        },
    }
}

/// The first name of the statements that isn't declared.
#[tactic(auto, using(crate::proofs::Unknowns::first_unknown_append))]
pub fn unknown<'a>(table: &SymbolTable, statements: &'a [Statement]) -> Option<Place<'a>>
    ensures { option_map use_of result ≡ first_unknown table.now (in_statements statement_uses statements.now) }
{
    for statement in statements {
        if let Some(place) = unknown_in_statement(table, statement) {
            return Some(place);
        }
    }
    None
}
