// Columns of no port, and bits that are listed once more.
ghost use Rattle.std.specs.Prelude.{◌≡◌, ◌<◌, IfOk, IsFalse, None, length, take, slice_index_or};
ghost use Rattle.std.specs.List.{IsDistinct, list_any};
ghost use Rattle.pat_io.specs.Known.{is_supply_input, is_known, first_again, unknown_fault, unknown_faults};
ghost use Rattle.pat_io.specs.Apart.{overlap, share_bit};
ghost use Rattle.pat_io.specs.PatternText.{first_fault};

use crate::apart::apart_count;
use crate::first_bit::first_again;
use crate::index::{Index, has_text, is_same_dir};
use pat_text::ParsedColumn;
use std::alloc::{AllocError, Global};
use vlsi_base::{Dir, FaultKind, InputFault, Name, Names, Port, Range, is_supply};

/// Whether a column is a supply, listed as an input.
pub fn is_supply_input(column: &ParsedColumn) -> bool
    ensures { result ≡ is_supply_input column.now }
{
    is_supply(column.name.as_bytes()) && is_same_dir(column.dir, Dir::In)
}

fn is_known<'a>(index: &Index<'a>, ports: &[Port], column: &'a ParsedColumn) -> bool
    ensures { result ≡ is_known ports.now column.now }
{
    is_supply_input(column) || has_text(index, ports, column)
}

fn overlap(a: Option<Range>, b: Option<Range>) -> bool
    ensures { result ≡ overlap a b }
{
    match (a, b) {
        (None, None) => true,
        (Some(a), Some(b)) => a.least() <= b.greatest() && b.least() <= a.greatest(),
        _ => false,
    }
}

/// Whether two columns list one bit.
fn share_bit(a: &ParsedColumn, b: &ParsedColumn) -> bool
    ensures { result ≡ share_bit a.now b.now }
{
    a.name.as_bytes() == b.name.as_bytes() && overlap(a.range, b.range)
}

/// Whether a column lists a bit that one of these lists.
fn shares_bit(columns: &[ParsedColumn], column: &ParsedColumn) -> bool
    ensures { result ≡ list_any (share_bit column.now) columns.now }
{
    columns.iter().any(|other| share_bit(column, other))
}

/// Whether a column lists a bit that one before it lists. The first ones, as many as `apart` says, list no bit twice, so
/// only a column behind them is compared with those before it.
fn is_listed(columns: &[ParsedColumn], apart: usize, place: usize, column: &ParsedColumn) -> bool
    requires inside { place < length columns.now }
    requires at { column.now ≡ slice_index_or columns.now place column.now }
    requires apart { IsDistinct share_bit (take apart columns.now) }
    ensures shares { result ≡ list_any (share_bit column.now) (take place columns.now) }
    ensures none { IsFalse result → first_again (take place columns.now) column.now ≡ None }
{
    if place < apart {
        return false;
    }
    shares_bit(&columns[..place], column)
}

/// The fault of a column that is told by its name and this bit.
fn fault(alloc: Global, column: &ParsedColumn, bit: Option<u32>) -> Result<InputFault, AllocError>
    ensures { IfOk result (λ made. made ≡ unknown_fault column.now (record { text = column.now.name; bit = bit })) }
{
    let text = column.name.copy(alloc)?;
    let mut names = Vec::new(alloc);
    names.push(Name { text, bit })?;
    Ok(InputFault {
        line: column.line,
        kind: FaultKind::Unknown,
        names: Names::new(names),
    })
}

/// The first column that is of no port, told by its name, or that lists a bit once more, told by the first such bit in its
/// own order. It takes memory for a reference a column.
pub fn unknown<'a>(
    alloc: Global,
    index: &Index<'a>,
    ports: &[Port],
    columns: &'a [ParsedColumn],
) -> Result<Option<InputFault>, AllocError>
    ensures { IfOk result (λ found. found ≡ first_fault (unknown_faults ports.now columns.now)) }
{
    let apart = apart_count(alloc, columns)?;
    for (place, column) in columns.iter().enumerate() {
        if !is_known(index, ports, column) {
            return Ok(Some(fault(alloc, column, None)?));
        }
        if is_listed(columns, apart, place, column) {
            let bit = first_again(&columns[..place], column);
            return Ok(Some(fault(alloc, column, bit)?));
        }
    }
    Ok(None)
}
