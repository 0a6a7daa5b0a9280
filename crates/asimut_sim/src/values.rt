// What patterns give and want of the bits that are listed, and what they show of those that are seen.
ghost use Rattle.std.specs.Prelude.{◌≡◌, ◌++◌, map, Bool, false, ◌<◌, IfSome, IfOk, OnOk, length, replicate};
ghost use Rattle.pat_meaning.specs.Columns.{column_names, listed, value_bits, given_bits, FitsColumns};
ghost use Rattle.asimut_sim.specs.Listed.{wanted_value, wanted_bits, is_other as is_other_bit, other_place as place_of_other, shown_value as shown_bits, shown};

use crate::columns::width;
use bool_expr::Bits;
use pat_meaning::{Column, Value};
use std::alloc::{AllocError, Global};
use vlsi_base::Dir;

fn push_zeros(bits: &mut Vec<bool>, count: usize) -> Result<(), AllocError>
    ensures { OnOk result (bits.new.items ≡ bits.old.items ++ replicate count false) }
{
    for _step in 0..count {
        bits.push(false)?;
    }
    Ok(())
}

/// So many bits that are 0.
pub(crate) fn zeros(alloc: Global, count: usize) -> Result<Vec<bool>, AllocError>
    ensures { IfOk result (λ bits. bits.items ≡ replicate count false) }
{
    let mut bits = Vec::new(alloc);
    push_zeros(&mut bits, count)?;
    Ok(bits)
}

fn push_given(bits: &mut Vec<bool>, column: &Column, value: &Value) -> Result<(), AllocError>
    ensures { OnOk result (bits.new.items ≡ bits.old.items ++ value_bits column.now value.now) }
{
    match value {
        Value::Digits(digits) => bits.extend_from_slice(digits.as_slice())?,
        Value::Any => push_zeros(bits, width(column))?,
    }
    Ok(())
}

/// The bits that a pattern gives to all columns. It takes memory for them.
pub(crate) fn given(
    alloc: Global,
    columns: &[Column],
    values: &[Value],
) -> Result<Vec<bool>, AllocError>
    requires { FitsColumns columns.now values.now }
    ensures { IfOk result (λ bits. bits.items ≡ given_bits columns.now values.now) }
{
    let mut bits = Vec::new(alloc);
    for (k, column) in columns.iter().enumerate() {
        push_given(&mut bits, column, &values[k])?;
    }
    Ok(bits)
}

fn push_nothing(wanted: &mut Vec<Option<bool>>, count: usize) -> Result<(), AllocError>
    ensures { OnOk result (wanted.new.items ≡ wanted.old.items ++ replicate count None) }
{
    for _step in 0..count {
        wanted.push(None)?;
    }
    Ok(())
}

fn push_bits(wanted: &mut Vec<Option<bool>>, bits: &[bool]) -> Result<(), AllocError>
    ensures { OnOk result (wanted.new.items ≡ wanted.old.items ++ map (λ b. Some b) bits.now) }
{
    for bit in bits {
        wanted.push(Some(*bit))?;
    }
    Ok(())
}

fn push_wanted(
    wanted: &mut Vec<Option<bool>>,
    column: &Column,
    value: &Value,
) -> Result<(), AllocError>
    ensures { OnOk result (wanted.new.items ≡ wanted.old.items ++ wanted_value column.now.dir (length (column_names column.now)) value.now) }
{
    match (column.dir, value) {
        (Dir::Out, Value::Digits(bits)) => push_bits(wanted, bits.as_slice()),
        _ => push_nothing(wanted, width(column)),
    }
}

/// The bits that a pattern wants of all columns. It takes memory for them.
pub(crate) fn wanted(
    alloc: Global,
    columns: &[Column],
    values: &[Value],
) -> Result<Vec<Option<bool>>, AllocError>
    requires { FitsColumns columns.now values.now }
    ensures { IfOk result (λ bits. bits.items ≡ wanted_bits columns.now values.now) }
{
    let mut bits = Vec::new(alloc);
    for (k, column) in columns.iter().enumerate() {
        push_wanted(&mut bits, column, &values[k])?;
    }
    Ok(bits)
}

fn is_other(wanted: Option<bool>, seen: bool) -> bool
    ensures { result ≡ is_other_bit wanted seen }
{
    match wanted {
        Some(bit) => bit != seen,
        None => false,
    }
}

/// The first place where another bit is seen than is wanted.
pub(crate) fn other_place(wanted: &[Option<bool>], seen: &[bool]) -> Option<usize>
    requires { length wanted.now ≡ length seen.now }
    ensures place { result ≡ place_of_other wanted.now seen.now }
    ensures within { IfSome result (λ k. k < length wanted.now) }
{
    for (k, bit) in wanted.iter().enumerate() {
        if is_other(*bit, seen[k]) {
            return Some(k);
        }
    }
    None
}

fn copied(alloc: Global, bits: &[bool]) -> Result<Bits, AllocError>
    ensures { IfOk result (λ made. made ≡ bits.now) }
{
    Ok(Bits::new(bits.to_vec(alloc)?))
}

/// An equal value, on this allocator.
fn copy_value(alloc: Global, value: &Value) -> Result<Value, AllocError>
    ensures { IfOk result (λ made. made ≡ value.now) }
{
    match value {
        Value::Digits(bits) => Ok(Value::Digits(copied(alloc, bits.as_slice())?)),
        Value::Any => Ok(Value::Any),
    }
}

fn shown_value(
    alloc: Global,
    column: &Column,
    value: &Value,
    seen: &[bool],
) -> Result<Value, AllocError>
    ensures { IfOk result (λ made. made ≡ shown_bits column.now.dir value.now seen.now) }
{
    match column.dir {
        Dir::In => copy_value(alloc, value),
        Dir::Out => Ok(Value::Digits(copied(alloc, seen)?)),
    }
}

/// The values with every output filled in from the bits that are seen. It takes memory for what it answers.
pub(crate) fn shown_values(
    alloc: Global,
    columns: &[Column],
    values: &[Value],
    seen: &[bool],
) -> Result<Vec<Value>, AllocError>
    requires values { FitsColumns columns.now values.now }
    requires seen { length seen.now ≡ length (listed columns.now) }
    ensures { IfOk result (λ made. made.items ≡ shown columns.now values.now seen.now) }
{
    let mut made = Vec::new(alloc);
    let mut rest = seen;
    for (k, column) in columns.iter().enumerate() {
        let (bits, others) = rest.split_at(width(column));
        made.push(shown_value(alloc, column, &values[k], bits)?)?;
        rest = others;
    }
    Ok(made)
}
