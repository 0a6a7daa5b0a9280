// The gates of a library.
ghost use Rattle.std.specs.Prelude.{◌≡◌, map, IfOk, false};
ghost use Rattle.std.specs.List.Sorted.{IsNonDecreasingBy};
ghost use Rattle.cell_checks.specs.Checked.{library_of, IsChecked};
ghost use Rattle.gate_cells.specs.Listed.{AreGateCells};
ghost use Rattle.gate_cells.specs.Entries.{AreEntries};

use crate::entry::{Entry, entry_of};
use cell_checks::Library;
use cell_match::CellWord;
use cell_model::Cell;
use std::alloc::{AllocError, Global};

/// The gates of a library that a netlist may use, by rising area: for each its word, its area, and its place in the library, in
/// vectors of the same length.
#[derive(Drop)]
pub struct GateCells {
    /// What each computes of its inputs, in the order of their names.
    pub words: Vec<CellWord>,
    /// The width of each in columns.
    pub areas: Vec<u32>,
    /// The place of each among the cells of the library.
    pub places: Vec<usize>,
}

/// The gates in the order of the list. Takes memory for them.
fn entries(alloc: Global, cells: &[Cell]) -> Result<Vec<Entry>, AllocError>
    requires { IsChecked false (library_of cells.now) }
    ensures { IfOk result (λ entries. AreEntries cells.now entries.items) }
{
    let mut entries = Vec::new(alloc);
    for (place, cell) in cells.iter().enumerate() {
        if let Some(entry) = entry_of(cell, place) {
            entries.push(entry)?;
        }
    }
    Ok(entries)
}

/// The gates by rising area, and those of one area in the order of the list. Takes memory for them.
fn sorted_entries(alloc: Global, cells: &[Cell]) -> Result<Vec<Entry>, AllocError>
    requires { IsChecked false (library_of cells.now) }
    ensures all { IfOk result (λ entries. AreEntries cells.now entries.items) }
    ensures rising { IfOk result (λ entries. IsNonDecreasingBy (λ x. x.area) entries.items) }
{
    let mut entries = entries(alloc, cells)?;
    entries.sort_by_key(|entry| entry.area)?;
    Ok(entries)
}

fn words_of(alloc: Global, entries: &[Entry]) -> Result<Vec<CellWord>, AllocError>
    ensures { IfOk result (λ words. words.items ≡ map (λ x. x.word) entries.now) }
{
    let mut words = Vec::new(alloc);
    for entry in entries {
        words.push(entry.word)?;
    }
    Ok(words)
}

fn areas_of(alloc: Global, entries: &[Entry]) -> Result<Vec<u32>, AllocError>
    ensures { IfOk result (λ areas. areas.items ≡ map (λ x. x.area) entries.now) }
{
    let mut areas = Vec::new(alloc);
    for entry in entries {
        areas.push(entry.area)?;
    }
    Ok(areas)
}

fn places_of(alloc: Global, entries: &[Entry]) -> Result<Vec<usize>, AllocError>
    ensures { IfOk result (λ places. places.items ≡ map (λ x. x.place) entries.now) }
{
    let mut places = Vec::new(alloc);
    for entry in entries {
        places.push(entry.place)?;
    }
    Ok(places)
}

/// The gates of a library that a netlist may use, by rising area; those of one area stand in the library's order. Takes memory for
/// them, and time for each cell and for sorting them.
pub fn gate_cells(alloc: Global, library: &Library) -> Result<GateCells, AllocError>
    ensures { IfOk result (λ gates. AreGateCells library.now gates) }
{
    let entries = sorted_entries(alloc, library.cells())?;
    Ok(GateCells {
        words: words_of(alloc, &entries)?,
        areas: areas_of(alloc, &entries)?,
        places: places_of(alloc, &entries)?,
    })
}
