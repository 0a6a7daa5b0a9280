// Which bits are driven: each by exactly one assignment.
ghost use Rattle.std.specs.Prelude.{◌≡◌, ◌≤◌, ◌^◌, ◌||◌, ℕ, [], ◌∷◌, List, IfOk, OnOk, MatchOption};
ghost use Rattle.std.specs.List.{list_any};
ghost use Rattle.vlsi_base.specs.declared.name.Name.{Name};
ghost use Rattle.source_checks.specs.Codes.{name_at, Tied};
ghost use Rattle.source_checks.specs.Driving.{Drives, Counts, undriven_of};
ghost use Rattle.source_checks.specs.Drivers.{first_undriven, needs_driver, counted_names, driver_at, driver_of, statement_drivers};
ghost use Rattle.source_checks.specs.Marks.{has, is_key};
ghost use Rattle.source_checks.specs.Places.{in_assignments, in_statements};
ghost use Rattle.source_checks.specs.Symbols.{find, symbols};
ghost use Rattle.source_checks.specs.DriverFault.{IsDriverFault};

use crate::codes::{codes_in, least_where, selected_codes};
use crate::marks::{Marks, mark};
use crate::symbol_table::{Role, Symbol, SymbolTable};
use crate::{Assignment, DesignFile, Statement, Target};
use std::alloc::{AllocError, Global};
use std::collections::BTreeSet;
use vlsi_base::{Name, Range, Text};

/// A name at fault, and a line.
#[derive(Drop)]
pub struct NameFault {
    pub line: u32,
    pub name: Name,
}

/// Outputs, inner signals and registers need a driver.
pub fn needs_driver(role: Role) -> bool
    ensures { result ≡ needs_driver role }
{
    match role {
        Role::Input | Role::Both => false,
        Role::Output | Role::Inner | Role::Register => true,
    }
}

/// The name with this code.
fn name_at(alloc: Global, text: &Text, code: u64) -> Result<Name, AllocError>
    requires { code ≤ 2 ^ 32 }
    ensures { IfOk result (λ name. name ≡ name_at text.now code) }
{
    let text = text.copy(alloc)?;
    let bit = if code == 0 {
        None
    } else {
        Some((code - 1) as u32)
    };
    Ok(Name { text, bit })
}

/// Puts all these bits of a name into the set.
fn mark_all(marks: &mut Marks, place: usize, codes: &[u64]) -> Result<(), AllocError>
    ensures { OnOk result ((q : ℕ × ℕ) → has marks.new q ≡ (list_any (λ c. is_key (place, c) q) codes.now || has marks.old q)) }
{
    for code in codes {
        mark(marks, place, *code)?;
    }
    Ok(())
}

/// The place and the range of a name, if it is declared and needs a driver.
fn counted(table: &SymbolTable, text: &[u8]) -> Option<(usize, Option<Range>)>
    ensures { MatchOption result
        ((names : List Name) → counted_names (find table.now text.now) names ≡ [])
        (λ r. Counts table.now text.now r.0 r.1) }
{
    let Some(symbol) = table.find(text) else {
        return None;
    };
    if !needs_driver(symbol.role) {
        return None;
    }
    match table.place(text) {
        Some(place) => Some((place, symbol.range)),
        None => None,
    }
}

/// What an assignment to a target does: a fault where one of its bits is driven already, and else its bits are driven.
fn drive(
    alloc: Global,
    table: &SymbolTable,
    marks: &mut Marks,
    target: &Target,
) -> Result<Option<NameFault>, AllocError>
    ensures { IfOk result (λ found. Drives table.now marks.old marks.new (driver_at table.now target.now ∷ []) found) }
{
    let Some((place, range)) = counted(table, target.name.as_bytes()) else {
        return Ok(None);
    };
    let codes = selected_codes(alloc, range, target.selection)?;
    match least_where(marks, place, &codes, true) {
        Some(code) => {
            let name = name_at(alloc, &target.name, code)?;
            Ok(Some(NameFault {
                line: target.line,
                name,
            }))
        }
        None => {
            mark_all(marks, place, &codes)?;
            Ok(None)
        }
    }
}

fn drive_all(
    alloc: Global,
    table: &SymbolTable,
    marks: &mut Marks,
    assignments: &[Assignment],
) -> Result<Option<NameFault>, AllocError>
    ensures { IfOk result (λ found. Drives table.now marks.old marks.new (in_assignments (driver_of table.now) assignments.now) found) }
{
    for assignment in assignments {
        let found = drive(alloc, table, marks, &assignment.target)?;
        if let Some(fault) = found {
            return Ok(Some(fault));
        }
    }
    Ok(None)
}

fn drive_statement(
    alloc: Global,
    table: &SymbolTable,
    marks: &mut Marks,
    statement: &Statement,
) -> Result<Option<NameFault>, AllocError>
    ensures { IfOk result (λ found. Drives table.now marks.old marks.new (statement_drivers table.now statement.now) found) }
{
    match statement {
        Statement::Assert(_) => Ok(None),
        Statement::Assign(assignment) => drive(alloc, table, marks, &assignment.target),
        Statement::Block(block) => drive_all(alloc, table, marks, block.assignments.as_slice()),
    }
}

/// The first assignment that drives a bit which an earlier one drives, with the least such bit; where there is none, the set
/// has all bits that are driven.
pub fn second_driver(
    alloc: Global,
    table: &SymbolTable,
    marks: &mut Marks,
    statements: &[Statement],
) -> Result<Option<NameFault>, AllocError>
    ensures { IfOk result (λ found. Drives table.now marks.old marks.new (in_statements (statement_drivers table.now) statements.now) found) }
{
    for statement in statements {
        let found = drive_statement(alloc, table, marks, statement)?;
        if let Some(fault) = found {
            return Ok(Some(fault));
        }
    }
    Ok(None)
}

/// The least bit of a declared name that isn't in the set.
fn undriven_bit(
    alloc: Global,
    marks: &Marks,
    place: usize,
    symbol: &Symbol,
) -> Result<Option<NameFault>, AllocError>
    ensures { IfOk result (λ found. found ≡ undriven_of marks.now place symbol.now) }
{
    if !needs_driver(symbol.role) {
        return Ok(None);
    }
    let codes = codes_in(alloc, symbol.range)?;
    match least_where(marks, place, &codes, false) {
        Some(code) => {
            let name = name_at(alloc, &symbol.text, code)?;
            Ok(Some(NameFault {
                line: symbol.line,
                name,
            }))
        }
        None => Ok(None),
    }
}

/// The first declared name that has a bit which isn't in the set, with the least such bit.
fn undriven(
    alloc: Global,
    table: &SymbolTable,
    marks: &Marks,
) -> Result<Option<NameFault>, AllocError>
    ensures { IfOk result (λ found. (driven : List Name) → Tied table.now marks.now driven → found ≡ first_undriven driven table.now) }
{
    let symbols = table.as_slice();
    for symbol in symbols {
        // Each declared name has a place.
        let Some(place) = table.place(symbol.text.as_bytes()) else {
            return Ok(None);
        };
        let found = undriven_bit(alloc, marks, place, symbol)?;
        if let Some(fault) = found {
            return Ok(Some(fault));
        }
    }
    Ok(None)
}

/// What is wrong with the drivers of a text.
#[derive(Drop)]
pub enum DriverFault {
    /// An assignment drives a bit that an earlier one drives.
    Again(NameFault),
    /// A declared bit has no driver.
    Missing(NameFault),
}

/// The first assignment that drives a bit again, with the least such bit; or else the first declared name that has a bit
/// without a driver, with the least such bit.
pub fn driver_fault(
    alloc: Global,
    table: &SymbolTable,
    design: &DesignFile,
) -> Result<Option<DriverFault>, AllocError>
    requires { table.now ≡ symbols design.now }
    ensures { IfOk result (λ found. IsDriverFault design.now found) }
{
    let mut marks = BTreeSet::new(alloc);
    let again = second_driver(alloc, table, &mut marks, design.statements.as_slice())?;
    if let Some(fault) = again {
        return Ok(Some(DriverFault::Again(fault)));
    }
    let missing = undriven(alloc, table, &marks)?;
    match missing {
        Some(fault) => Ok(Some(DriverFault::Missing(fault))),
        None => Ok(None),
    }
}
