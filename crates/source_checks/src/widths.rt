// Where widths don't fit.
ghost use Rattle.std.specs.Prelude.{◌≡◌, ◌<◌, ◌^◌, None, ◌*◌, ◌++◌, ◌&&◌, not, length, Some, if◌then◌else◌};
ghost use Rattle.std.specs.Option.{ForSome};
ghost use Rattle.vlsi_base.specs.Tree.{Tree, view};
ghost use Rattle.vlsi_base.specs.Radix.{digit_width};
ghost use Rattle.source_checks.specs.Lines.{first_line};
ghost use Rattle.source_checks.specs.Measure.{measure_of, joined_measure, IsNarrow, MeasuredSoFar};
ghost use Rattle.source_checks.specs.Operators.{operators, IsShort, ShortAlternatives, ShortChoice, ShortAssignments, ShortStatement, ShortStatements, HasShortExpressions};
ghost use Rattle.vlsi_base.specs.Range.{is_ordered};
ghost use Rattle.source_checks.specs.Symbols.{symbols, find, has_bit};
ghost use Rattle.source_checks.specs.Widths.{found_width, needs_equal, joined_width, ordered_width, differ, index_fits, range_fits, if_not, width_faults, condition_faults, all_wide, target_width, target_faults, assignment_faults, statement_faults, declared_faults, port_faults, signal_faults, all_width_faults};
ghost use Rattle.source_checks.specs.Places.{in_alternatives, in_choice, in_assignments, in_statements};

use crate::symbol_table::SymbolTable;
use crate::{Assignment, Choice, DesignFile, Guarded, Selection, Statement, Target};
use vlsi_base::{Operator, ParsedExpr, PortGroup, Radix, Range, SignalGroup};

/// How many bits an expression has, if it has a width (a relation has one whatever its operands are), and the line of its first fault.
#[derive(Clone, Copy)]
pub struct Measure {
    pub width: Option<u128>,
    pub fault: Option<u32>,
}

fn ordered_width(range: Range) -> Option<u128>
    ensures is { result ≡ ordered_width range }
    ensures narrow { ForSome result (λ n. n < 2 ^ 64) }
{
    if range.is_ordered() {
        Some(u128::from(range.width()))
    } else {
        None
    }
}

/// Whether the bounds of a range of a declaration hold this number.
pub fn has_bit(range: Range, k: u32) -> bool
    ensures { result ≡ has_bit range k }
{
    if range.falls {
        range.right <= k && k <= range.left
    } else {
        range.left <= k && k <= range.right
    }
}

/// How many bits a name has; 0 where it isn't declared.
pub fn found_width(table: &SymbolTable, text: &[u8]) -> u128
    ensures is { result ≡ found_width (find table.now text.now) }
    ensures narrow { result < 2 ^ 64 }
{
    match table.find(text) {
        Some(symbol) => match symbol.range {
            Some(range) => u128::from(range.width()),
            None => 1,
        },
        None => 0,
    }
}

/// Whether a bit of a name lies in its declaration.
fn index_fits(table: &SymbolTable, text: &[u8], k: u32) -> bool
    ensures { result ≡ index_fits (find table.now text.now) k }
{
    match table.find(text) {
        Some(symbol) => match symbol.range {
            Some(declared) => has_bit(declared, k),
            None => false,
        },
        None => true,
    }
}

/// Whether a range of a name has the word of its declaration and bounds in their order, and lies in it.
fn range_fits(table: &SymbolTable, text: &[u8], range: Range) -> bool
    ensures { result ≡ range_fits (find table.now text.now) range }
{
    match table.find(text) {
        Some(symbol) => match symbol.range {
            Some(declared) => lies_in(declared, range),
            None => false,
        },
        None => true,
    }
}

fn lies_in(declared: Range, range: Range) -> bool
    ensures { result ≡ ((if range.falls then declared.falls else not declared.falls) && is_ordered range &&
        has_bit declared range.left && has_bit declared range.right) }
{
    let same_word = if range.falls {
        declared.falls
    } else {
        !declared.falls
    };
    same_word
        && range.is_ordered()
        && has_bit(declared, range.left)
        && has_bit(declared, range.right)
}

fn needs_equal(operator: Operator) -> bool
    ensures { result ≡ needs_equal operator }
{
    match operator {
        Operator::Join => false,
        _ => true,
    }
}

pub fn differ(a: Option<u128>, b: Option<u128>) -> bool
    ensures { result ≡ differ a b }
{
    match (a, b) {
        (Some(a), Some(b)) => a != b,
        _ => false,
    }
}

/// The width of what an operator gives.
fn joined_width(operator: Operator, a: Option<u128>, b: Option<u128>) -> Option<u128>
    requires first { ForSome a (λ n. n < 2 ^ 127) }
    requires second { ForSome b (λ n. n < 2 ^ 127) }
    ensures { result ≡ joined_width operator a b }
{
    match operator {
        Operator::Equal | Operator::Unequal => Some(1),
        Operator::Join => match (a, b) {
            (Some(a), Some(b)) => Some(a + b),
            _ => None,
        },
        _ => match (a, b) {
            (Some(a), Some(b)) => { if a == b { Some(a) } else { None } }
            _ => None,
        },
    }
}

/// The measure of an operator, from those of its operands.
fn joined(operator: Operator, line: u32, a: Measure, b: Measure) -> Measure
    requires first { ForSome a.width (λ n. n < 2 ^ 127) }
    requires second { ForSome b.width (λ n. n < 2 ^ 127) }
    ensures { result ≡ joined_measure operator line a b }
{
    let width = joined_width(operator, a.width, b.width);
    let fault = if a.fault.is_some() {
        a.fault
    } else if needs_equal(operator) && differ(a.width, b.width) {
        Some(line)
    } else {
        b.fault
    };
    Measure { width, fault }
}

/// How many bits a literal has: at most four for each digit.
fn literal_width(radix: Radix, digits: &[u8]) -> u128
    ensures is { result ≡ digit_width radix * length digits.now }
    ensures narrow { result < 2 ^ 66 }
{
    radix.digit_width() as u128 * digits.len() as u128
}

fn sound(width: Option<u128>) -> Measure
    ensures { result ≡ record { width = width; fault = None } }
{
    Measure { width, fault: None }
}

/// The measure of a part that fits or not.
fn fitting(width: Option<u128>, fits: bool, line: u32) -> Measure
    ensures { result ≡ record { width = width; fault = first_line (if_not fits line) } }
{
    let fault = if fits { None } else { Some(line) };
    Measure { width, fault }
}

/// The measure of an expression, whose width is small, since it has few operators.
#[cycle(measure)]
fn measure_expression(table: &SymbolTable, e: &ParsedExpr) -> Measure
    requires short { IsShort (view e.now) }
    ensures is { result ≡ measure_of table.now (view e.now) }
    ensures narrow { IsNarrow (operators (view e.now)) result.width }
{
    match e {
        ParsedExpr::Bit(_, _) => sound(Some(1)),
        ParsedExpr::Literal(radix, digits, _) => {
            sound(Some(literal_width(*radix, digits.as_bytes())))
        }
        ParsedExpr::Name(text, _) => sound(Some(found_width(table, text.as_bytes()))),
        ParsedExpr::Index(text, line, k) => {
            fitting(Some(1), index_fits(table, text.as_bytes(), *k), *line)
        }
        ParsedExpr::Slice(text, _, range) => fitting(
            ordered_width(*range),
            range_fits(table, text.as_bytes(), *range),
            range.line,
        ),
        ParsedExpr::Stable(_, _) => sound(Some(1)),
        ParsedExpr::Not(_, inner) => measure_expression(table, inner),
        ParsedExpr::Binary(operator, line, left, right) => {
            let left = measure_expression(table, left);
            let right = measure_expression(table, right);
            joined(*operator, *line, left, right)
        }
        ParsedExpr::Chain(operator, first, others) => {
            let first = measure_expression(table, first);
            measure_chain(table, *operator, first, others)
        }
    }
}

/// The measure of operands that one operator joins, from that of the first.
#[cycle(measure)]
fn measure_chain(
    table: &SymbolTable,
    operator: Operator,
    first: Measure,
    others: &[(u32, ParsedExpr)],
) -> Measure
    requires short { (whole : Tree) × MeasuredSoFar table.now operator whole first others.now × IsShort whole }
    ensures is { (whole : Tree) → MeasuredSoFar table.now operator whole first others.now → result ≡ measure_of table.now whole }
    ensures narrow { (whole : Tree) → MeasuredSoFar table.now operator whole first others.now → IsNarrow (operators whole) result.width }
{
    let mut all = first;
    for (line, e) in others {
        let next = measure_expression(table, e);
        all = joined(operator, *line, all, next);
    }
    all
}

/// The measure of an expression.
pub fn measured(table: &SymbolTable, e: &ParsedExpr) -> Measure
    requires short { IsShort (view e.now) }
    ensures { result ≡ measure_of table.now (view e.now) }
{
    measure_expression(table, e)
}

/// The first fault of an expression.
pub fn value_fault(table: &SymbolTable, e: &ParsedExpr) -> Option<u32>
    requires short { IsShort (view e.now) }
    ensures { result ≡ first_line (width_faults table.now (view e.now)) }
{
    let made = measured(table, e);
    made.fault
}

/// The first fault of a condition, which is one bit wide.
#[tactic(auto, using(crate::proofs::FirstLines::first_line_append))]
pub fn condition_fault(table: &SymbolTable, line: u32, e: &ParsedExpr) -> Option<u32>
    requires short { IsShort (view e.now) }
    ensures { result ≡ first_line (condition_faults table.now line (view e.now)) }
{
    let made = measured(table, e);
    if differ(made.width, Some(1)) {
        Some(line)
    } else {
        made.fault
    }
}

/// The first fault of an alternative: of its value, then of its condition.
#[tactic(auto, using(crate::proofs::FirstLines::first_line_append))]
fn guarded_fault(table: &SymbolTable, guarded: &Guarded) -> Option<u32>
    requires value { IsShort (view guarded.now.value) }
    requires condition { IsShort (view guarded.now.condition) }
    ensures { result ≡ first_line (width_faults table.now (view guarded.now.value)
        ++ condition_faults table.now guarded.now.line (view guarded.now.condition)) }
{
    let value = value_fault(table, &guarded.value);
    let condition = condition_fault(table, guarded.line, &guarded.condition);
    value.or(condition)
}

fn alternatives_fault(table: &SymbolTable, alternatives: &[Guarded]) -> Option<u32>
    requires short { ShortAlternatives alternatives.now }
    ensures { result ≡ first_line (in_alternatives (width_faults table.now) (condition_faults table.now) alternatives.now) }
{
    for guarded in alternatives {
        if let Some(line) = guarded_fault(table, guarded) {
            return Some(line);
        }
    }
    None
}

/// Whether each alternative's value is this wide.
fn are_wide(
    table: &SymbolTable,
    n: Option<u128>,
    alternatives: &[Guarded],
    otherwise: &ParsedExpr,
) -> bool
    requires alternatives { ShortAlternatives alternatives.now }
    requires otherwise { IsShort (view otherwise.now) }
    ensures { result ≡ all_wide table.now n alternatives.now (view otherwise.now) }
{
    for guarded in alternatives {
        let made = measured(table, &guarded.value);
        if differ(made.width, n) {
            return false;
        }
    }
    let made = measured(table, otherwise);
    !differ(made.width, n)
}

pub fn target_width(table: &SymbolTable, target: &Target) -> Option<u128>
    ensures { result ≡ target_width table.now target.now }
{
    match target.selection {
        Selection::Whole => Some(found_width(table, target.name.as_bytes())),
        Selection::Bit(_) => Some(1),
        Selection::Bits(range) => ordered_width(range),
    }
}

pub fn target_fault(table: &SymbolTable, target: &Target) -> Option<u32>
    ensures { result ≡ first_line (target_faults table.now target.now) }
{
    match target.selection {
        Selection::Whole => None,
        Selection::Bit(k) => {
            if index_fits(table, target.name.as_bytes(), k) {
                None
            } else {
                Some(target.line)
            }
        }
        Selection::Bits(range) => {
            if range_fits(table, target.name.as_bytes(), range) {
                None
            } else {
                Some(range.line)
            }
        }
    }
}

/// The first fault of a choice.
#[tactic(auto, using(crate::proofs::FirstLines::first_line_append))]
fn choice_fault(table: &SymbolTable, choice: &Choice) -> Option<u32>
    requires short { ShortChoice choice.now }
    ensures { result ≡ first_line (in_choice (width_faults table.now) (condition_faults table.now) choice.now) }
{
    let first = alternatives_fault(table, choice.alternatives.as_slice());
    let last = value_fault(table, &choice.otherwise);
    first.or(last)
}

/// The first fault of an assignment: of its width or its target, then of its choice.
#[tactic(auto, using(crate::proofs::FirstLines::first_line_append))]
fn assignment_fault(table: &SymbolTable, assignment: &Assignment) -> Option<u32>
    requires short { ShortChoice assignment.now.choice }
    ensures { result ≡ first_line (assignment_faults table.now assignment.now) }
{
    let target = &assignment.target;
    let choice = &assignment.choice;
    let wide = are_wide(
        table,
        target_width(table, target),
        choice.alternatives.as_slice(),
        &choice.otherwise,
    );
    let inside = choice_fault(table, choice);
    if !wide {
        return Some(target.line);
    }
    target_fault(table, target).or(inside)
}

fn assignments_fault(table: &SymbolTable, assignments: &[Assignment]) -> Option<u32>
    requires short { ShortAssignments assignments.now }
    ensures { result ≡ first_line (in_assignments (assignment_faults table.now) assignments.now) }
{
    for assignment in assignments {
        if let Some(line) = assignment_fault(table, assignment) {
            return Some(line);
        }
    }
    None
}

#[tactic(auto, using(crate::proofs::FirstLines::first_line_append))]
fn statement_fault(table: &SymbolTable, statement: &Statement) -> Option<u32>
    requires short { ShortStatement statement.now }
    ensures { result ≡ first_line (statement_faults table.now statement.now) }
{
    match statement {
        Statement::Assert(e) => value_fault(table, e),
        Statement::Assign(assignment) => assignment_fault(table, assignment),
        Statement::Block(block) => {
            let guard = value_fault(table, &block.guard);
            let inside = assignments_fault(table, block.assignments.as_slice());
            guard.or(inside)
        }
    }
}

fn statements_fault(table: &SymbolTable, statements: &[Statement]) -> Option<u32>
    requires short { ShortStatements statements.now }
    ensures { result ≡ first_line (in_statements (statement_faults table.now) statements.now) }
{
    for statement in statements {
        if let Some(line) = statement_fault(table, statement) {
            return Some(line);
        }
    }
    None
}

/// The line of a range of a declaration whose bounds don't stand in the order of its word. Takes no memory.
pub fn declared_fault(range: Option<Range>) -> Option<u32>
    ensures { result ≡ first_line (declared_faults range) }
{
    match range {
        Some(range) => {
            if range.is_ordered() {
                None
            } else {
                Some(range.line)
            }
        }
        None => None,
    }
}

/// The line of the first range of ports whose bounds don't stand in the order of its word. Takes no memory.
pub fn ports_fault(groups: &[PortGroup]) -> Option<u32>
    ensures { result ≡ first_line (port_faults groups.now) }
{
    for group in groups {
        if let Some(line) = declared_fault(group.kind.range) {
            return Some(line);
        }
    }
    None
}

fn signals_fault(groups: &[SignalGroup]) -> Option<u32>
    ensures { result ≡ first_line (signal_faults groups.now) }
{
    for group in groups {
        if let Some(line) = declared_fault(group.kind.range) {
            return Some(line);
        }
    }
    None
}

/// The line of the first place where widths don't fit.
#[tactic(auto, using(crate::proofs::FirstLines::first_line_append))]
pub fn width_fault(table: &SymbolTable, design: &DesignFile) -> Option<u32>
    requires known { table.now ≡ symbols design.now }
    requires short { HasShortExpressions design.now }
    ensures { result ≡ first_line (all_width_faults design.now) }
{
    ports_fault(design.entity.ports.as_slice())
        .or(signals_fault(design.declarations.signals.as_slice()))
        .or(statements_fault(table, design.statements.as_slice()))
}
