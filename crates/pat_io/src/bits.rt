// The bits that digits spell.
ghost use Rattle.std.specs.Prelude.{◌≡◌, ◌++◌, ◌<◌, ◌≤◌, ◌^◌, Some, not, IfOk, OnOk};
ghost use Rattle.std.specs.Option.{option_copied};
ghost use Rattle.std.specs.List.{list_all};
ghost use Rattle.vlsi_base.specs.Radix.{digit_width};
ghost use Rattle.pat_io.specs.Digits.{column_width, number_bits, digit_value, digits_bits, unused, column_bits};
ghost use Rattle.pat_io.specs.Fitting.{value_fits};

use pat_text::ParsedColumn;
use std::alloc::{AllocError, Global};
use vlsi_base::{Radix, Range, Text};

/// How many bits a column lists.
pub fn column_width(range: Option<Range>) -> usize
    ensures width { result ≡ column_width range }
    ensures most { result ≤ 2 ^ 32 }
{
    match range {
        None => 1,
        Some(range) => range.span() as usize,
    }
}

fn digit_value(digit: u8) -> u8
    ensures { result ≡ digit_value digit }
{
    if digit < b':' {
        digit.saturating_sub(b'0')
    } else {
        digit.saturating_sub(b'W')
    }
}

fn push_binary(bits: &mut Vec<bool>, value: u8) -> Result<(), AllocError>
    ensures { OnOk result (bits.new.items ≡ bits.old.items ++ number_bits 1 value) }
{
    bits.push(value % 2 == 1)?;
    Ok(())
}

fn push_octal(bits: &mut Vec<bool>, value: u8) -> Result<(), AllocError>
    ensures { OnOk result (bits.new.items ≡ bits.old.items ++ number_bits 3 value) }
{
    bits.push(value / 4 % 2 == 1)?;
    bits.push(value / 2 % 2 == 1)?;
    push_binary(bits, value)
}

fn push_hexadecimal(bits: &mut Vec<bool>, value: u8) -> Result<(), AllocError>
    ensures { OnOk result (bits.new.items ≡ bits.old.items ++ number_bits 4 value) }
{
    bits.push(value / 8 % 2 == 1)?;
    push_octal(bits, value)
}

fn push_digit(bits: &mut Vec<bool>, format: Radix, digit: u8) -> Result<(), AllocError>
    ensures { OnOk result (bits.new.items ≡ bits.old.items ++ number_bits (digit_width format) (digit_value digit)) }
{
    let value = digit_value(digit);
    match format {
        Radix::Binary => push_binary(bits, value),
        Radix::Octal => push_octal(bits, value),
        Radix::Hexadecimal => push_hexadecimal(bits, value),
    }
}

fn digits_bits(alloc: Global, format: Radix, digits: &[u8]) -> Result<Vec<bool>, AllocError>
    ensures { IfOk result (λ bits. bits.items ≡ digits_bits format digits.now) }
{
    let mut bits = Vec::new(alloc);
    for digit in digits {
        push_digit(&mut bits, format, *digit)?;
    }
    Ok(bits)
}

fn are_zero(bits: &[bool]) -> bool
    ensures { result ≡ list_all not bits.now }
{
    bits.iter().all(|bit| !*bit)
}

fn digits_fit(alloc: Global, column: &ParsedColumn, digits: &Text) -> Result<bool, AllocError>
    ensures { IfOk result (λ fits. fits ≡ value_fits column.now (Some digits.now)) }
{
    let width = column_width(column.range);
    let digits = digits.as_bytes();
    if digits.len() != width.div_ceil(column.format.digit_width()) {
        return Ok(false);
    }
    let bits = digits_bits(alloc, column.format, digits)?;
    let unused = bits.len().saturating_sub(width);
    Ok(are_zero(&bits[..unused]))
}

/// Whether a value has as many digits as its column needs, and no bit set that the column hasn't. It takes memory for
/// its bits.
pub fn value_fits(
    alloc: Global,
    column: &ParsedColumn,
    digits: Option<&Text>,
) -> Result<bool, AllocError>
    ensures { IfOk result (λ fits. fits ≡ value_fits column.now (option_copied digits.entry)) }
{
    match digits {
        None => Ok(true),
        Some(digits) => digits_fit(alloc, column, digits),
    }
}

/// The bits that digits give a column, from the left. It takes memory for them.
pub fn column_bits(
    alloc: Global,
    column: &ParsedColumn,
    digits: &[u8],
) -> Result<Vec<bool>, AllocError>
    ensures { IfOk result (λ bits. bits.items ≡ column_bits column.now digits.now) }
{
    let bits = digits_bits(alloc, column.format, digits)?;
    let unused = bits.len().saturating_sub(column_width(column.range));
    bits[unused..].to_vec(alloc)
}
