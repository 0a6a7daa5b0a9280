// A source, elaborated over the numbers of its declared bits.
ghost use Rattle.std.specs.Prelude.{◌≡◌, ◌<◌, ◌^◌, [], length, map, option_map, IfOk};
ghost use Rattle.std.specs.Option.{option_copied};
ghost use Rattle.machine_core.specs.Order.{AllDifferent};
ghost use Rattle.source_checks.specs.Clock.{clock_text, all_clock_lines};
ghost use Rattle.source_checks.specs.Symbols.{symbols, scalar, all_names};
ghost use Rattle.vlsi_model.specs.Sources.{IsSourceOf};

use source_bits::{DrivenBit, Numbers, StoredBit, driven_bits, stored_bits};
use source_checks::{DesignFile, SymbolTable};
use source_clock::clock;
use std::alloc::{AllocError, Global};
use vlsi_base::{Name, Text};

/// The numbers of a source's declared bits, its clock, and the bits that it drives, outside of blocks and in them.
#[derive(Drop)]
pub struct Source {
    pub numbers: Numbers,
    pub clock: Option<Name>,
    pub driven: Vec<DrivenBit>,
    pub stored: Vec<StoredBit>,
}

fn bytes_of<'a>(text: Option<&'a Text>) -> Option<&'a [u8]>
    ensures { option_copied result ≡ option_copied text.entry }
{
    match text {
        Some(text) => Some(text.as_bytes()),
        None => None,
    }
}

fn name_of(alloc: Global, text: Option<&Text>) -> Result<Option<Name>, AllocError>
    ensures { IfOk result (λ name. name ≡ option_map scalar (option_copied text.entry)) }
{
    match text {
        Some(text) => {
            let text = text.copy(alloc)?;
            Ok(Some(Name::scalar(text)))
        }
        None => Ok(None),
    }
}

/// The source of these numbers and this clock.
fn with_clock(
    alloc: Global,
    numbers: Numbers,
    clock: Option<&Text>,
    design: &DesignFile,
) -> Result<Source, AllocError>
    requires known { numbers ≡ symbols design.now }
    requires different { AllDifferent (map (λ s. s.text) (symbols design.now)) }
    requires few { length (all_names (symbols design.now)) < 2 ^ 32 }
    requires clock { option_copied clock ≡ clock_text design.now }
    requires clocked { all_clock_lines design.now ≡ [] }
    ensures { IfOk result (λ s. IsSourceOf design.now s) }
{
    let driven = driven_bits(alloc, &numbers, design.statements.as_slice())?;
    let stored = stored_bits(
        alloc,
        &numbers,
        bytes_of(clock),
        design.statements.as_slice(),
    )?;
    let clock = name_of(alloc, clock)?;
    Ok(Source {
        numbers,
        clock,
        driven,
        stored,
    })
}

/// A source whose declared names are these, in which no line is at fault for the clock.
pub fn elaborated(
    alloc: Global,
    table: SymbolTable,
    design: &DesignFile,
) -> Result<Source, AllocError>
    requires known { table ≡ symbols design.now }
    requires few { length (all_names (symbols design.now)) < 2 ^ 32 }
    requires different { AllDifferent (map (λ s. s.text) (symbols design.now)) }
    requires clocked { all_clock_lines design.now ≡ [] }
    ensures { IfOk result (λ s. IsSourceOf design.now s) }
{
    let clock = clock(alloc, &table, design.statements.as_slice())?;
    let numbers = Numbers::new(alloc, table)?;
    with_clock(alloc, numbers, clock, design)
}
