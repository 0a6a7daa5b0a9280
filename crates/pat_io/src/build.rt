// From what is written to patterns.
ghost use Rattle.std.specs.Prelude.{◌≡◌, map, IfOk};
ghost use Rattle.std.specs.Option.{option_copied};
ghost use Rattle.pat_io.specs.Digits.{bit_range, column_of, value_for, values_for, pattern_for, patterns_for};

use crate::bits::column_bits;
use bool_expr::Bits;
use pat_meaning::{BitRange, Column, Columns, Pattern, PatternList, Patterns, Value, Values};
use pat_text::{ParsedColumn, ParsedPattern, ParsedValue, PatternFile};
use std::alloc::{AllocError, Global};
use vlsi_base::{Range, Text};

fn bit_range(range: Option<Range>) -> Option<BitRange>
    ensures { result ≡ bit_range range }
{
    match range {
        None => None,
        Some(range) => Some(BitRange {
            left: range.left,
            right: range.right,
        }),
    }
}

fn column(alloc: Global, parsed: &ParsedColumn) -> Result<Column, AllocError>
    ensures { IfOk result (λ c. c ≡ column_of parsed.now) }
{
    Ok(Column {
        name: parsed.name.copy(alloc)?,
        dir: parsed.dir,
        range: bit_range(parsed.range),
        format: parsed.format,
    })
}

fn columns(alloc: Global, list: &[ParsedColumn]) -> Result<Vec<Column>, AllocError>
    ensures { IfOk result (λ cs. cs.items ≡ map column_of list.now) }
{
    let mut columns = Vec::new(alloc);
    for parsed in list {
        let next = column(alloc, parsed)?;
        columns.push(next)?;
    }
    Ok(columns)
}

fn value(alloc: Global, column: &ParsedColumn, digits: Option<&Text>) -> Result<Value, AllocError>
    ensures { IfOk result (λ v. v ≡ value_for column.now (option_copied digits.entry)) }
{
    match digits {
        None => Ok(Value::Any),
        Some(digits) => {
            let bits = column_bits(alloc, column, digits.as_bytes())?;
            Ok(Value::Digits(Bits::new(bits)))
        }
    }
}

fn values(
    alloc: Global,
    columns: &[ParsedColumn],
    list: &[ParsedValue],
) -> Result<Vec<Value>, AllocError>
    ensures { IfOk result (λ vs. vs.items ≡ values_for columns.now list.now) }
{
    let mut values = Vec::new(alloc);
    let count = columns.len().min(list.len());
    for k in 0..count {
        let next = value(alloc, &columns[k], list[k].digits.as_ref())?;
        values.push(next)?;
    }
    Ok(values)
}

fn label(alloc: Global, parsed: Option<&Text>) -> Result<Option<Text>, AllocError>
    ensures { IfOk result (λ l. l ≡ option_copied parsed.entry) }
{
    match parsed {
        None => Ok(None),
        Some(text) => Ok(Some(text.copy(alloc)?)),
    }
}

fn pattern(
    alloc: Global,
    columns: &[ParsedColumn],
    parsed: &ParsedPattern,
) -> Result<Pattern, AllocError>
    ensures { IfOk result (λ p. p ≡ pattern_for columns.now parsed.now) }
{
    let label = label(alloc, parsed.label.as_ref())?;
    let values = values(alloc, columns, parsed.values.as_slice())?;
    Ok(Pattern {
        time: parsed.time,
        label,
        values: Values::new(values),
    })
}

fn pattern_list(
    alloc: Global,
    columns: &[ParsedColumn],
    list: &[ParsedPattern],
) -> Result<Vec<Pattern>, AllocError>
    ensures { IfOk result (λ ps. ps.items ≡ map (pattern_for columns.now) list.now) }
{
    let mut patterns = Vec::new(alloc);
    for parsed in list {
        let next = pattern(alloc, columns, parsed)?;
        patterns.push(next)?;
    }
    Ok(patterns)
}

/// The patterns that are written. It takes memory for them.
pub fn patterns(alloc: Global, parsed: &PatternFile) -> Result<Patterns, AllocError>
    ensures { IfOk result (λ p. p ≡ patterns_for parsed.now) }
{
    let columns = columns(alloc, parsed.columns.as_slice())?;
    let patterns = pattern_list(alloc, parsed.columns.as_slice(), parsed.patterns.as_slice())?;
    Ok(Patterns {
        columns: Columns::new(columns),
        patterns: PatternList::new(patterns),
    })
}
