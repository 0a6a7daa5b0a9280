// Whether an expression of a source reads a bit.
ghost use Rattle.std.specs.Prelude.{◌≡◌, ◌∷◌, ◌++◌, [], map};
ghost use Rattle.vlsi_base.specs.Tree.{view, operand_of};
ghost use Rattle.source_checks.specs.Symbols.{names_in, bit_name, find};
ghost use Rattle.source_checks.specs.Formula.{names_of_found};
ghost use Rattle.source_checks.specs.Drivers.{is_among};
ghost use Rattle.vbe_text.specs.Source.{guarded_view, assignment_view, statement_view};
ghost use Rattle.vbe_free.specs.Filled.{bits_read, operands_read, alternatives_read, assignment_reads, each_reads, statement_reads, source_reads};

use source_checks::{Assignment, Guarded, Statement, SymbolTable, has_bit};
use vlsi_base::{ParsedExpr, Range};

/// Whether the bit is one of a name's in a range.
fn is_in(text: &[u8], range: Option<Range>, of: &[u8], bit: Option<u32>) -> bool
    ensures { result ≡ is_among (names_in text.now range) (record { text = of.now; bit = bit }) }
{
    if text != of {
        return false;
    }
    match (range, bit) {
        (None, None) => true,
        (Some(range), Some(k)) => has_bit(range, k),
        (None, Some(_)) => false,
        (Some(_), None) => false,
    }
}

/// Whether the bit is this one of a name.
fn is_one(text: &[u8], k: u32, of: &[u8], bit: Option<u32>) -> bool
    ensures { result ≡ is_among (bit_name text.now k ∷ []) (record { text = of.now; bit = bit }) }
{
    if text != of {
        return false;
    }
    match bit {
        Some(number) => number == k,
        None => false,
    }
}

/// Whether the bit is one of a name's.
fn is_of_name(table: &SymbolTable, text: &[u8], of: &[u8], bit: Option<u32>) -> bool
    ensures { result ≡ is_among (names_of_found (find table.now text.now)) (record { text = of.now; bit = bit }) }
{
    match table.find(text) {
        Some(symbol) => is_in(symbol.text.as_bytes(), symbol.range, of, bit),
        None => false,
    }
}

/// Whether an expression reads the bit.
#[cycle(reading)]
#[tactic(auto, using(crate::proofs::Walks::is_among_append))]
fn reads(table: &SymbolTable, e: &ParsedExpr, of: &[u8], bit: Option<u32>) -> bool
    ensures { result ≡ is_among (bits_read table.now (view e.now)) (record { text = of.now; bit = bit }) }
{
    match e {
        ParsedExpr::Bit(_, _) => false,
        ParsedExpr::Literal(_, _, _) => false,
        ParsedExpr::Name(text, _) => is_of_name(table, text.as_bytes(), of, bit),
        ParsedExpr::Index(text, _, k) => is_one(text.as_bytes(), *k, of, bit),
        ParsedExpr::Slice(text, _, range) => is_in(text.as_bytes(), Some(*range), of, bit),
        ParsedExpr::Stable(_, _) => false,
        ParsedExpr::Not(_, inner) => reads(table, inner, of, bit),
        ParsedExpr::Binary(_, _, left, right) => {
            reads(table, left, of, bit) || reads(table, right, of, bit)
        }
        ParsedExpr::Chain(_, first, others) => {
            reads(table, first, of, bit) || others_read(table, others, of, bit)
        }
    }
}

#[cycle(reading)]
fn others_read(
    table: &SymbolTable,
    others: &[(u32, ParsedExpr)],
    of: &[u8],
    bit: Option<u32>,
) -> bool
    ensures { result ≡ is_among (operands_read table.now (map operand_of others.now)) (record { text = of.now; bit = bit }) }
{
    for (_, e) in others {
        if reads(table, e, of, bit) {
            return true;
        }
    }
    false
}

#[tactic(auto, using(crate::proofs::Walks::is_among_append))]
fn guarded_reads(table: &SymbolTable, guarded: &Guarded, of: &[u8], bit: Option<u32>) -> bool
    ensures { result ≡ is_among (bits_read table.now (view guarded.now.value) ++ bits_read table.now (view guarded.now.condition))
        (record { text = of.now; bit = bit }) }
{
    reads(table, &guarded.value, of, bit) || reads(table, &guarded.condition, of, bit)
}

fn alternatives_read(
    table: &SymbolTable,
    alternatives: &[Guarded],
    of: &[u8],
    bit: Option<u32>,
) -> bool
    ensures { result ≡ is_among (alternatives_read table.now (map guarded_view alternatives.now)) (record { text = of.now; bit = bit }) }
{
    for guarded in alternatives {
        if guarded_reads(table, guarded, of, bit) {
            return true;
        }
    }
    false
}

#[tactic(auto, using(crate::proofs::Walks::is_among_append))]
fn assignment_reads(
    table: &SymbolTable,
    assignment: &Assignment,
    of: &[u8],
    bit: Option<u32>,
) -> bool
    ensures { result ≡ is_among (assignment_reads table.now (assignment_view assignment.now)) (record { text = of.now; bit = bit }) }
{
    let choice = &assignment.choice;
    alternatives_read(table, choice.alternatives.as_slice(), of, bit)
        || reads(table, &choice.otherwise, of, bit)
}

fn assignments_read(
    table: &SymbolTable,
    assignments: &[Assignment],
    of: &[u8],
    bit: Option<u32>,
) -> bool
    ensures { result ≡ is_among (each_reads table.now (map assignment_view assignments.now)) (record { text = of.now; bit = bit }) }
{
    for assignment in assignments {
        if assignment_reads(table, assignment, of, bit) {
            return true;
        }
    }
    false
}

#[tactic(auto, using(crate::proofs::Walks::is_among_append))]
fn statement_reads(table: &SymbolTable, statement: &Statement, of: &[u8], bit: Option<u32>) -> bool
    ensures { result ≡ is_among (statement_reads table.now (statement_view statement.now)) (record { text = of.now; bit = bit }) }
{
    match statement {
        Statement::Assert(e) => reads(table, e, of, bit),
        Statement::Assign(assignment) => assignment_reads(table, assignment, of, bit),
        Statement::Block(block) => {
            reads(table, &block.guard, of, bit)
                || assignments_read(table, block.assignments.as_slice(), of, bit)
        }
    }
}

/// Whether some expression of the statements reads the bit. Takes no memory.
pub fn is_read(table: &SymbolTable, statements: &[Statement], of: &[u8], bit: Option<u32>) -> bool
    ensures { result ≡ is_among (source_reads table.now (map statement_view statements.now)) (record { text = of.now; bit = bit }) }
{
    for statement in statements {
        if statement_reads(table, statement, of, bit) {
            return true;
        }
    }
    false
}
