// Where widths don't fit.
ghost use Rattle.std.specs.Prelude.{◌≡◌, ◌≤◌, ◌+◌, ◌^◌, ◌&&◌, not, Some, IfOk};
ghost use Rattle.std.specs.List.{list_all};
ghost use Rattle.vlsi_base.specs.Name.{is_supply};
ghost use Rattle.vlsi_base.specs.Range.{rising, is_ordered, least};
ghost use Rattle.pat_io.specs.Digits.{column_width};
ghost use Rattle.pat_io.specs.Fitting.{is_port, column_fits, column_line, column_faults, value_faults, pattern_faults, width_faults};
ghost use Rattle.pat_io.specs.PatternText.{first_line};

use crate::bits::{column_width, value_fits};
use crate::index::{Index, has_bit};
use crate::known::is_supply_input;
use pat_text::{ParsedColumn, ParsedPattern, ParsedValue, PatternFile};
use std::alloc::{AllocError, Global};
use vlsi_base::{Dir, Port, Range, is_supply};

/// Whether each of so many bits from the first one on is a port bit of the direction.
fn has_bits<'a>(
    index: &Index<'a>,
    ports: &[Port],
    text: &'a [u8],
    first: u32,
    count: usize,
    dir: Dir,
) -> bool
    requires { first + count ≤ 2 ^ 32 }
    ensures { result ≡ list_all (λ k. is_port ports.now dir (record { text = text.now; bit = Some k })) (rising first count) }
{
    for step in 0..count {
        let bit = (first as u64 + step as u64) as u32;
        if !has_bit(index, ports, text, Some(bit), dir) {
            return false;
        }
    }
    true
}

fn range_fits<'a>(index: &Index<'a>, ports: &[Port], column: &'a ParsedColumn, range: Range) -> bool
    ensures { result ≡ (not (is_supply column.now.name) && (is_ordered range
        && list_all (λ k. is_port ports.now column.now.dir (record { text = column.now.name; bit = Some k }))
        (rising (least range) (column_width (Some range))))) }
{
    let text = column.name.as_bytes();
    if is_supply(text) {
        return false;
    }
    if !range.is_ordered() {
        return false;
    }
    let count = column_width(Some(range));
    has_bits(index, ports, text, range.least(), count, column.dir)
}

/// Whether a vector is listed with a range of bits that it has, and a scalar or a supply without one.
fn column_fits<'a>(index: &Index<'a>, ports: &[Port], column: &'a ParsedColumn) -> bool
    ensures { result ≡ column_fits ports.now column.now }
{
    match column.range {
        None => {
            is_supply_input(column)
                || has_bit(index, ports, column.name.as_bytes(), None, column.dir)
        }
        Some(range) => range_fits(index, ports, column, range),
    }
}

/// The line of a column's range, or of its name where it has none.
fn column_line(column: &ParsedColumn) -> u32
    ensures { result ≡ column_line column.now }
{
    match column.range {
        None => column.line,
        Some(range) => range.line,
    }
}

fn columns_fault<'a>(index: &Index<'a>, ports: &[Port], columns: &'a [ParsedColumn]) -> Option<u32>
    ensures { result ≡ first_line (column_faults ports.now columns.now) }
{
    for column in columns {
        if !column_fits(index, ports, column) {
            return Some(column_line(column));
        }
    }
    None
}

fn values_fault(
    alloc: Global,
    columns: &[ParsedColumn],
    values: &[ParsedValue],
) -> Result<Option<u32>, AllocError>
    ensures { IfOk result (λ line. line ≡ first_line (value_faults columns.now values.now)) }
{
    let count = columns.len().min(values.len());
    for k in 0..count {
        if !value_fits(alloc, &columns[k], values[k].digits.as_ref())? {
            return Ok(Some(values[k].line));
        }
    }
    Ok(None)
}

fn patterns_fault(
    alloc: Global,
    columns: &[ParsedColumn],
    patterns: &[ParsedPattern],
) -> Result<Option<u32>, AllocError>
    ensures { IfOk result (λ line. line ≡ first_line (pattern_faults columns.now patterns.now)) }
{
    for pattern in patterns {
        if let Some(line) = values_fault(alloc, columns, pattern.values.as_slice())? {
            return Ok(Some(line));
        }
    }
    Ok(None)
}

/// The line of the first column or value whose width doesn't fit. It takes memory for the bits of a value.
pub fn width_fault<'a>(
    alloc: Global,
    index: &Index<'a>,
    ports: &[Port],
    parsed: &'a PatternFile,
) -> Result<Option<u32>, AllocError>
    ensures { IfOk result (λ line. line ≡ first_line (width_faults ports.now parsed.now)) }
{
    let columns = parsed.columns.as_slice();
    match columns_fault(index, ports, columns) {
        Some(line) => Ok(Some(line)),
        None => patterns_fault(alloc, columns, parsed.patterns.as_slice()),
    }
}
