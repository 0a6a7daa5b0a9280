// The checks of a source before that for rings, in their order.
ghost use Rattle.std.specs.Prelude.{◌≡◌, IfOk};
ghost use Rattle.source_checks.specs.Checks.{first_fault};
ghost use Rattle.source_checks.specs.Operators.{HasShortExpressions};
ghost use Rattle.source_checks.specs.Symbols.{symbols};
ghost use Rattle.vlsi_model.specs.Stages.{name_fault, driver_fault, shape_fault, form_fault};

use crate::faults::{line_fault, name_fault, text_fault};
use source_checks::{
    DesignFile, DriverFault, SymbolTable, driver_fault as find_driver_fault, repeated, unknown,
    unsupported, width_fault,
};
use source_clock::clock_fault;
use std::alloc::{AllocError, Global};
use vlsi_base::{FaultKind, ReadError};

/// The first name that is declared twice, or else the first that isn't declared.
fn names_fault(
    alloc: Global,
    table: &SymbolTable,
    design: &DesignFile,
) -> Result<Option<ReadError>, AllocError>
    requires { table.now ≡ symbols design.now }
    ensures { IfOk result (λ e. e ≡ name_fault design.now) }
{
    if let Some(symbol) = repeated(table) {
        let e = text_fault(alloc, FaultKind::Twice, symbol.line, &symbol.text)?;
        return Ok(Some(e));
    }
    if let Some(place) = unknown(table, design.statements.as_slice()) {
        let e = text_fault(alloc, FaultKind::Unknown, place.line, place.text)?;
        return Ok(Some(e));
    }
    Ok(None)
}

/// The first assignment that drives a bit again, or else the first declared name with a bit that has no driver.
fn drivers_fault(
    alloc: Global,
    table: &SymbolTable,
    design: &DesignFile,
) -> Result<Option<ReadError>, AllocError>
    requires { table.now ≡ symbols design.now }
    ensures { IfOk result (λ e. e ≡ driver_fault design.now) }
{
    let found = find_driver_fault(alloc, table, design)?;
    match found {
        Some(DriverFault::Again(f)) => {
            let e = name_fault(alloc, FaultKind::TwoDrivers, f.line, f.name)?;
            Ok(Some(e))
        }
        Some(DriverFault::Missing(f)) => {
            let e = name_fault(alloc, FaultKind::Undriven, f.line, f.name)?;
            Ok(Some(e))
        }
        None => Ok(None),
    }
}

/// The first place where widths don't fit, or else what is wrong with the drivers.
fn shapes_fault(
    alloc: Global,
    table: &SymbolTable,
    design: &DesignFile,
) -> Result<Option<ReadError>, AllocError>
    requires known { table.now ≡ symbols design.now }
    requires short { HasShortExpressions design.now }
    ensures { IfOk result (λ e. e ≡ shape_fault design.now) }
{
    match line_fault(alloc, FaultKind::Width, width_fault(table, design)) {
        Some(e) => Ok(Some(e)),
        None => drivers_fault(alloc, table, design),
    }
}

/// The first form that is left out, or else the first place where the clock is at fault.
fn forms_fault(
    alloc: Global,
    table: &SymbolTable,
    design: &DesignFile,
) -> Result<Option<ReadError>, AllocError>
    requires { table.now ≡ symbols design.now }
    ensures { IfOk result (λ e. e ≡ form_fault design.now) }
{
    match line_fault(alloc, FaultKind::Unsupported, unsupported(table, design)) {
        Some(e) => Ok(Some(e)),
        None => {
            let line = clock_fault(alloc, table, design)?;
            Ok(line_fault(alloc, FaultKind::ClockUse, line))
        }
    }
}

/// The first check of a source that fails, of those before that for rings: a name that is declared twice, an unknown name,
/// a width, two drivers of a bit, none, a form that is left out, a guard or the clock.
#[tactic(auto, using(crate::proofs::Stages::stages))]
pub fn refusal(
    alloc: Global,
    table: &SymbolTable,
    design: &DesignFile,
) -> Result<Option<ReadError>, AllocError>
    requires known { table.now ≡ symbols design.now }
    requires short { HasShortExpressions design.now }
    ensures { IfOk result (λ e. e ≡ first_fault design.now) }
{
    let named = names_fault(alloc, table, design)?;
    if let Some(e) = named {
        return Ok(Some(e));
    }
    let shaped = shapes_fault(alloc, table, design)?;
    if let Some(e) = shaped {
        return Ok(Some(e));
    }
    forms_fault(alloc, table, design)
}
