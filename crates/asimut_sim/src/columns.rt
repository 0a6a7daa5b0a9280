// The bits that columns list.
ghost use Rattle.std.specs.Prelude.{◌≡◌, ◌++◌, ◌+◌, ◌^◌, ◌≤◌, IfOk, OnOk, length};
ghost use Rattle.vlsi_base.specs.Range.{rising, falling};
ghost use Rattle.pat_meaning.specs.Columns.{range_bits, bits_named, column_names, listed};

use pat_meaning::{BitRange, Column};
use std::alloc::{AllocError, Global};
use vlsi_base::{Name, Text};

fn bits_of(range: BitRange) -> u64
    ensures { result ≡ length (range_bits range) }
{
    if range.left <= range.right {
        (range.right - range.left) as u64 + 1
    } else {
        (range.left - range.right) as u64 + 1
    }
}

/// How many bits a column lists.
pub(crate) fn width(column: &Column) -> usize
    ensures { result ≡ length (column_names column.now) }
{
    match column.range {
        None => 1,
        Some(range) => bits_of(range) as usize,
    }
}

fn bit_name(alloc: Global, text: &Text, bit: u32) -> Result<Name, AllocError>
    ensures { IfOk result (λ name. name ≡ record { text = text.now; bit = Some bit }) }
{
    Ok(Name {
        text: text.copy(alloc)?,
        bit: Some(bit),
    })
}

// The bits from this one upwards.
fn push_rising(
    alloc: Global,
    names: &mut Vec<Name>,
    text: &Text,
    first: u32,
    count: u64,
) -> Result<(), AllocError>
    requires { first + count ≤ 2 ^ 32 }
    ensures { OnOk result (names.new.items ≡ names.old.items ++ bits_named text.now (rising first count)) }
{
    for step in 0..count {
        names.push(bit_name(alloc, text, (first as u64 + step) as u32)?)?;
    }
    Ok(())
}

// The bits down to this one.
fn push_falling(
    alloc: Global,
    names: &mut Vec<Name>,
    text: &Text,
    last: u32,
    count: u64,
) -> Result<(), AllocError>
    requires { last + count ≤ 2 ^ 32 }
    ensures { OnOk result (names.new.items ≡ names.old.items ++ bits_named text.now (falling last count)) }
{
    for step in 0..count {
        let bit = last as u64 + (count - 1 - step);
        names.push(bit_name(alloc, text, bit as u32)?)?;
    }
    Ok(())
}

fn push_range(
    alloc: Global,
    names: &mut Vec<Name>,
    text: &Text,
    range: BitRange,
) -> Result<(), AllocError>
    ensures { OnOk result (names.new.items ≡ names.old.items ++ bits_named text.now (range_bits range)) }
{
    if range.left <= range.right {
        let count = (range.right - range.left) as u64 + 1;
        push_rising(alloc, names, text, range.left, count)
    } else {
        let count = (range.left - range.right) as u64 + 1;
        push_falling(alloc, names, text, range.right, count)
    }
}

fn push_column(alloc: Global, names: &mut Vec<Name>, column: &Column) -> Result<(), AllocError>
    ensures { OnOk result (names.new.items ≡ names.old.items ++ column_names column.now) }
{
    match column.range {
        None => names.push(Name::scalar(column.name.copy(alloc)?))?,
        Some(range) => push_range(alloc, names, &column.name, range)?,
    }
    Ok(())
}

/// All bits that the columns list. It takes memory for their names.
pub(crate) fn listed_names(alloc: Global, columns: &[Column]) -> Result<Vec<Name>, AllocError>
    ensures { IfOk result (λ names. names.items ≡ listed columns.now) }
{
    let mut names = Vec::new(alloc);
    for column in columns {
        push_column(alloc, &mut names, column)?;
    }
    Ok(names)
}
