// The writer: columns and patterns in the one spelling.
ghost use Rattle.std.specs.Prelude.{◌≡◌, ◌≤◌, ◌<◌, ◌+◌, ◌*◌, if◌then◌else◌, ◌++◌, ◌∷◌, [], length, codes, IfOk, OnOk};
ghost use Rattle.std.specs.Fmt.{decimal};
ghost use Rattle.pat_io.specs.Spelling.{item_end as end_of_item, word_of, range_text, format_text, dir_text, column_text, columns_text, number_from, digit_of, digits_text, bits_text, mark_text, value_text, values_text, unit_text, sign_text, time_text, label_text, pattern_text, patterns_text, text_of};

use pat_meaning::{BitRange, Column, Pattern, Patterns, Time, TimeUnit, Value};
use std::alloc::{AllocError, Global};
use vlsi_base::{Dir, FileBytes, Radix, Text};

/// A number.
fn number(alloc: Global, out: &mut FileBytes, n: u32) -> Result<(), AllocError>
    ensures { OnOk result (out.new ≡ out.old ++ decimal n) }
{
    let text = n.to_string(alloc)?;
    out.append(text.as_bytes())
}

fn item_end(out: &mut FileBytes) -> Result<(), AllocError>
    ensures { OnOk result (out.new ≡ out.old ++ end_of_item) }
{
    out.append(b";\n")
}

fn word(out: &mut FileBytes, range: BitRange) -> Result<(), AllocError>
    ensures { OnOk result (out.new ≡ out.old ++ word_of range) }
{
    if range.right <= range.left {
        out.append(b" downto ")
    } else {
        out.append(b" to ")
    }
}

fn bounds(alloc: Global, out: &mut FileBytes, bits: BitRange) -> Result<(), AllocError>
    ensures { OnOk result (out.new ≡ out.old ++ range_text (Some bits)) }
{
    out.append(b" (")?;
    number(alloc, out, bits.left)?;
    word(out, bits)?;
    number(alloc, out, bits.right)?;
    out.append(b")")
}

fn range(alloc: Global, out: &mut FileBytes, bits: Option<BitRange>) -> Result<(), AllocError>
    ensures { OnOk result (out.new ≡ out.old ++ range_text bits) }
{
    match bits {
        None => Ok(()),
        Some(bits) => bounds(alloc, out, bits),
    }
}

fn format(out: &mut FileBytes, format: Radix) -> Result<(), AllocError>
    ensures { OnOk result (out.new ≡ out.old ++ format_text format) }
{
    match format {
        Radix::Binary => Ok(()),
        Radix::Octal => out.append(b" O"),
        Radix::Hexadecimal => out.append(b" X"),
    }
}

fn dir(out: &mut FileBytes, dir: Dir) -> Result<(), AllocError>
    ensures { OnOk result (out.new ≡ out.old ++ dir_text dir) }
{
    match dir {
        Dir::In => out.append(b"in "),
        Dir::Out => out.append(b"out "),
    }
}

fn column(alloc: Global, out: &mut FileBytes, column: &Column) -> Result<(), AllocError>
    ensures { OnOk result (out.new ≡ out.old ++ column_text column.now) }
{
    dir(out, column.dir)?;
    out.append(column.name.as_bytes())?;
    range(alloc, out, column.range)?;
    format(out, column.format)?;
    item_end(out)
}

fn columns(alloc: Global, out: &mut FileBytes, items: &[Column]) -> Result<(), AllocError>
    ensures { OnOk result (out.new ≡ out.old ++ columns_text items.now) }
{
    for item in items {
        column(alloc, out, item)?;
    }
    Ok(())
}

fn twice(value: u8, bit: bool) -> u8
    requires { value < 8 }
    ensures { result ≡ 2 * value + (if bit then 1 else 0) }
{
    if bit { 2 * value + 1 } else { 2 * value }
}

/// The digit of up to four bits.
fn digit(bits: &[bool]) -> u8
    requires { length bits.now ≤ 4 }
    ensures { result ≡ digit_of (number_from 0 bits.now) }
{
    let mut value = 0u8;
    for bit in bits {
        value = twice(value, *bit);
    }
    if value < 10 {
        b'0' + value
    } else {
        b'a' - 10 + value
    }
}

/// So many digits, of the format.
fn digits(out: &mut FileBytes, format: Radix, bits: &[bool]) -> Result<(), AllocError>
    ensures { OnOk result (out.new ≡ out.old ++ bits_text format bits.now) }
{
    let each = format.digit_width();
    let count = bits.len().div_ceil(each);
    let mut rest = bits;
    for step in 0..count {
        let behind = count - 1 - step;
        let (front, others) = rest.split_at(rest.len() - each * behind);
        out.append(&[digit(front)])?;
        rest = others;
    }
    Ok(())
}

fn mark(out: &mut FileBytes, dir: Dir) -> Result<(), AllocError>
    ensures { OnOk result (out.new ≡ out.old ++ mark_text dir) }
{
    match dir {
        Dir::In => Ok(()),
        Dir::Out => out.append(b"?"),
    }
}

fn value(out: &mut FileBytes, column: &Column, value: &Value) -> Result<(), AllocError>
    ensures { OnOk result (out.new ≡ out.old ++ value_text column.now value.now) }
{
    match value {
        Value::Digits(bits) => {
            mark(out, column.dir)?;
            digits(out, column.format, bits.as_slice())
        }
        Value::Any => out.append(b"?*"),
    }
}

fn spaced_value(out: &mut FileBytes, column: &Column, item: &Value) -> Result<(), AllocError>
    ensures { OnOk result (out.new ≡ out.old ++ (codes " " ++ value_text column.now item.now)) }
{
    out.append(b" ")?;
    value(out, column, item)
}

fn values(out: &mut FileBytes, columns: &[Column], items: &[Value]) -> Result<(), AllocError>
    ensures { OnOk result (out.new ≡ out.old ++ values_text columns.now items.now) }
{
    for (k, column) in columns.iter().enumerate() {
        if k < items.len() {
            spaced_value(out, column, &items[k])?;
        }
    }
    Ok(())
}

fn unit(out: &mut FileBytes, unit: TimeUnit) -> Result<(), AllocError>
    ensures { OnOk result (out.new ≡ out.old ++ unit_text unit) }
{
    match unit {
        TimeUnit::Femtosecond => out.append(b" fs> "),
        TimeUnit::Picosecond => out.append(b" ps> "),
        TimeUnit::Nanosecond => out.append(b" ns> "),
        TimeUnit::Microsecond => out.append(b" us> "),
        TimeUnit::Millisecond => out.append(b" ms> "),
    }
}

fn sign(out: &mut FileBytes, is_added: bool) -> Result<(), AllocError>
    ensures { OnOk result (out.new ≡ out.old ++ sign_text is_added) }
{
    if is_added { out.append(b"+ ") } else { Ok(()) }
}

fn time(alloc: Global, out: &mut FileBytes, time: Time) -> Result<(), AllocError>
    ensures { OnOk result (out.new ≡ out.old ++ time_text time) }
{
    out.append(b"< ")?;
    sign(out, time.is_added)?;
    number(alloc, out, time.number)?;
    unit(out, time.unit)
}

fn label(out: &mut FileBytes, label: &Option<Text>) -> Result<(), AllocError>
    ensures { OnOk result (out.new ≡ out.old ++ label_text label.now) }
{
    match label {
        None => Ok(()),
        Some(label) => {
            out.append(label.as_bytes())?;
            out.append(b" ")
        }
    }
}

fn pattern(
    alloc: Global,
    out: &mut FileBytes,
    columns: &[Column],
    pattern: &Pattern,
) -> Result<(), AllocError>
    ensures { OnOk result (out.new ≡ out.old ++ pattern_text columns.now pattern.now) }
{
    time(alloc, out, pattern.time)?;
    label(out, &pattern.label)?;
    out.append(b":")?;
    values(out, columns, pattern.values.as_slice())?;
    item_end(out)
}

fn patterns(
    alloc: Global,
    out: &mut FileBytes,
    columns: &[Column],
    items: &[Pattern],
) -> Result<(), AllocError>
    ensures { OnOk result (out.new ≡ out.old ++ patterns_text columns.now items.now) }
{
    for item in items {
        pattern(alloc, out, columns, item)?;
    }
    Ok(())
}

/// The text of patterns: a line for each column, `begin`, a line for each pattern, and `end`. Outputs' values begin with
/// `?`, and those of which nothing is said are `?*`. It takes memory for the text.
#[tactic(auto, unfolding(crate::specs::Spelling::text_of))]
pub fn write_pat(alloc: Global, p: &Patterns) -> Result<FileBytes, AllocError>
    ensures { IfOk result (λ bytes. bytes ≡ text_of p.now) }
{
    let mut out = FileBytes::new(Vec::new(alloc));
    columns(alloc, &mut out, p.columns.as_slice())?;
    out.append(b"begin\n")?;
    patterns(alloc, &mut out, p.columns.as_slice(), p.patterns.as_slice())?;
    out.append(b"end;\n")?;
    Ok(out)
}
