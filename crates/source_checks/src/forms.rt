// Forms of the language that are left out.
ghost use Rattle.std.specs.Prelude.{◌≡◌, ◌*◌, ◌++◌, ◌&&◌, length, map, nat_le};
ghost use Rattle.vlsi_base.specs.Tree.{view, operand_of};
ghost use Rattle.vlsi_base.specs.Radix.{digit_width};
ghost use Rattle.source_checks.specs.Lines.{first_line, in_operands};
ghost use Rattle.source_checks.specs.Places.{in_alternatives, in_assignments, in_statements};
ghost use Rattle.vlsi_base.specs.Name.{is_supply};
ghost use Rattle.source_checks.specs.Symbols.{find, symbols};
ghost use Rattle.source_checks.specs.Unsupported.{literal_faults, may_drive, assignment_forms, statement_forms, supply_faults, is_resolved, port_form, port_forms, signal_form, signal_forms, all_unsupported};

use crate::symbol_table::{Role, SymbolTable};
use crate::{Assignment, DesignFile, Guarded, Statement};
use vlsi_base::{Mode, NewName, ParsedExpr, PortGroup, Radix, SignalGroup, TypeWord, is_supply};

/// The most bits of a literal.
const MOST_BITS: usize = 128;

/// Whether a literal has 1 to 128 bits.
fn fits_literal(radix: Radix, digits: &[u8]) -> bool
    ensures { result ≡ (nat_le 1 (length digits.now) && nat_le (digit_width radix * length digits.now) 128) }
{
    1 <= digits.len() && radix.digit_width().saturating_mul(digits.len()) <= MOST_BITS
}

/// The line of the first literal in an expression that has too few or too many bits.
#[cycle(literal)]
#[tactic(auto, using(crate::proofs::FirstLines::first_line_append))]
pub fn literal_fault(e: &ParsedExpr) -> Option<u32>
    ensures { result ≡ first_line (literal_faults (view e.now)) }
{
    match e {
        ParsedExpr::Bit(_, _) => None,
        ParsedExpr::Literal(radix, digits, line) => {
            if fits_literal(*radix, digits.as_bytes()) {
                None
            } else {
                Some(*line)
            }
        }
        ParsedExpr::Name(_, _) => None,
        ParsedExpr::Index(_, _, _) => None,
        ParsedExpr::Slice(_, _, _) => None,
        ParsedExpr::Stable(_, _) => None,
        ParsedExpr::Not(_, inner) => literal_fault(inner),
        ParsedExpr::Binary(_, _, left, right) => match literal_fault(left) {
            Some(line) => Some(line),
            None => literal_fault(right),
        },
        ParsedExpr::Chain(_, first, others) => match literal_fault(first) {
            Some(line) => Some(line),
            None => literal_fault_among(others),
        },
    }
}

#[cycle(literal)]
#[tactic(auto, using(crate::proofs::FirstLines::first_line_append))]
fn literal_fault_among(others: &[(u32, ParsedExpr)]) -> Option<u32>
    ensures { result ≡ first_line (in_operands literal_faults (map operand_of others.now)) }
{
    for (_, e) in others {
        if let Some(line) = literal_fault(e) {
            return Some(line);
        }
    }
    None
}

/// The same of an alternative: of its value, then of its condition.
#[tactic(auto, using(crate::proofs::FirstLines::first_line_append))]
fn literal_fault_in_guarded(guarded: &Guarded) -> Option<u32>
    ensures { result ≡ first_line (literal_faults (view guarded.now.value) ++ literal_faults (view guarded.now.condition)) }
{
    match literal_fault(&guarded.value) {
        Some(line) => Some(line),
        None => literal_fault(&guarded.condition),
    }
}

fn literal_fault_in_alternatives(alternatives: &[Guarded]) -> Option<u32>
    ensures { result ≡ first_line (in_alternatives literal_faults (λ line e. literal_faults e) alternatives.now) }
{
    for guarded in alternatives {
        if let Some(line) = literal_fault_in_guarded(guarded) {
            return Some(line);
        }
    }
    None
}

/// Whether a name may be driven here: registers in blocks alone, outputs and inner signals outside of them, inputs nowhere.
fn may_drive(table: &SymbolTable, in_block: bool, text: &[u8]) -> bool
    ensures { result ≡ may_drive in_block (find table.now text.now) }
{
    match table.find(text) {
        Some(symbol) => match symbol.role {
            Role::Input => false,
            Role::Register => in_block,
            Role::Output | Role::Both | Role::Inner => !in_block,
        },
        None => true,
    }
}

/// The first line at fault in an assignment: its target's, or one of a literal.
#[tactic(auto, using(crate::proofs::FirstLines::first_line_append))]
fn assignment_form(table: &SymbolTable, in_block: bool, assignment: &Assignment) -> Option<u32>
    ensures { result ≡ first_line (assignment_forms table.now in_block assignment.now) }
{
    let target = &assignment.target;
    if !may_drive(table, in_block, target.name.as_bytes()) {
        return Some(target.line);
    }
    let choice = &assignment.choice;
    match literal_fault_in_alternatives(choice.alternatives.as_slice()) {
        Some(line) => Some(line),
        None => literal_fault(&choice.otherwise),
    }
}

fn assignments_form(table: &SymbolTable, in_block: bool, assignments: &[Assignment]) -> Option<u32>
    ensures { result ≡ first_line (in_assignments (assignment_forms table.now in_block) assignments.now) }
{
    for assignment in assignments {
        if let Some(line) = assignment_form(table, in_block, assignment) {
            return Some(line);
        }
    }
    None
}

#[tactic(auto, using(crate::proofs::FirstLines::first_line_append))]
fn statement_form(table: &SymbolTable, statement: &Statement) -> Option<u32>
    ensures { result ≡ first_line (statement_forms table.now statement.now) }
{
    match statement {
        Statement::Assert(e) => literal_fault(e),
        Statement::Assign(assignment) => assignment_form(table, false, assignment),
        Statement::Block(block) => match literal_fault(&block.guard) {
            Some(line) => Some(line),
            None => assignments_form(table, true, block.assignments.as_slice()),
        },
    }
}

fn statements_form(table: &SymbolTable, statements: &[Statement]) -> Option<u32>
    ensures { result ≡ first_line (in_statements (statement_forms table.now) statements.now) }
{
    for statement in statements {
        if let Some(line) = statement_form(table, statement) {
            return Some(line);
        }
    }
    None
}

/// The line of the first supply among names that aren't of an input of one bit. Takes no memory.
pub fn supply_fault(fits: bool, names: &[NewName]) -> Option<u32>
    ensures { result ≡ first_line (supply_faults fits names.now) }
{
    for name in names {
        if !fits && is_supply(name.text.as_bytes()) {
            return Some(name.line);
        }
    }
    None
}

/// Whether this is one of the types mux and wor, which are left out.
pub fn is_resolved(word: TypeWord) -> bool
    ensures { result ≡ is_resolved word }
{
    matches!(
        word,
        TypeWord::MuxBit | TypeWord::MuxVector | TypeWord::WorBit | TypeWord::WorVector
    )
}

/// The first line at fault in a declaration of ports.
#[tactic(auto, using(crate::proofs::FirstLines::first_line_append))]
fn port_form(group: &PortGroup) -> Option<u32>
    ensures { result ≡ first_line (port_form group.now) }
{
    let fits = group.mode == Mode::In && group.kind.word == TypeWord::Bit;
    if let Some(line) = supply_fault(fits, group.names.as_slice()) {
        return Some(line);
    }
    if group.mode == Mode::Inout {
        return Some(group.mode_line);
    }
    if is_resolved(group.kind.word) {
        return Some(group.kind.line);
    }
    None
}

/// The line of the first port group with a form that is not taken: a supply of another form, a port of mode inout, a type
/// with several drivers.
pub fn ports_form(groups: &[PortGroup]) -> Option<u32>
    ensures { result ≡ first_line (port_forms groups.now) }
{
    for group in groups {
        if let Some(line) = port_form(group) {
            return Some(line);
        }
    }
    None
}

/// The first line at fault in a declaration of signals.
#[tactic(auto, using(crate::proofs::FirstLines::first_line_append))]
fn signal_form(group: &SignalGroup) -> Option<u32>
    ensures { result ≡ first_line (signal_form group.now) }
{
    if let Some(line) = supply_fault(false, group.names.as_slice()) {
        return Some(line);
    }
    if is_resolved(group.kind.word) {
        return Some(group.kind.line);
    }
    None
}

fn signals_form(groups: &[SignalGroup]) -> Option<u32>
    ensures { result ≡ first_line (signal_forms groups.now) }
{
    for group in groups {
        if let Some(line) = signal_form(group) {
            return Some(line);
        }
    }
    None
}

/// The line of the first form that is left out.
#[tactic(auto, using(crate::proofs::FirstLines::first_line_append))]
pub fn unsupported(table: &SymbolTable, design: &DesignFile) -> Option<u32>
    requires { table.now ≡ symbols design.now }
    ensures { result ≡ first_line (all_unsupported design.now) }
{
    if let Some(line) = ports_form(design.entity.ports.as_slice()) {
        return Some(line);
    }
    match signals_form(design.declarations.signals.as_slice()) {
        Some(line) => Some(line),
        None => statements_form(table, design.statements.as_slice()),
    }
}
