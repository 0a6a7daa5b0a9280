// Columns that list no bit twice.
ghost use Rattle.std.specs.Prelude.{◌≡◌, ◌≤◌, IfOk, IsTrue, length, map, take};
ghost use Rattle.std.specs.List.{IsDistinct};
ghost use Rattle.vlsi_base.specs.Name.{name_cmp};
ghost use Rattle.pat_io.specs.Apart.{share_bit, least_bit, greatest_bit, first_name, comes_before};

use pat_text::ParsedColumn;
use std::alloc::{AllocError, Global};
use std::cmp::Ordering;
use vlsi_base::Range;

fn least_bit(range: Option<Range>) -> Option<u32>
    ensures { result ≡ least_bit range }
{
    match range {
        Some(range) => Some(range.least()),
        None => None,
    }
}

fn greatest_bit(range: Option<Range>) -> Option<u32>
    ensures { result ≡ greatest_bit range }
{
    match range {
        Some(range) => Some(range.greatest()),
        None => None,
    }
}

/// The order of two columns by the first bits that they list.
fn order(a: &ParsedColumn, b: &ParsedColumn) -> Ordering
    ensures { result ≡ name_cmp (first_name a.now) (first_name b.now) }
{
    let bits = least_bit(a.range).cmp(&least_bit(b.range));
    a.name.compare(&b.name).then(bits)
}

/// Whether each bit of a column comes before each of another, in the order of names.
fn comes_before(a: &ParsedColumn, b: &ParsedColumn) -> bool
    ensures { result ≡ comes_before a.now b.now }
{
    let bits = greatest_bit(a.range).cmp(&least_bit(b.range));
    a.name.compare(&b.name).then(bits).is_lt()
}

/// Whether each of the columns comes before the next.
fn rise(columns: &[&ParsedColumn]) -> bool
    ensures { IsTrue result → IsDistinct share_bit (map (λ c. c.now) columns.now) }
{
    for k in 1..columns.len() {
        if !comes_before(columns[k - 1], columns[k]) {
            return false;
        }
    }
    true
}

fn references(alloc: Global, columns: &[ParsedColumn]) -> Result<Vec<&ParsedColumn>, AllocError>
    ensures { IfOk result (λ found. map (λ c. c.now) found.items ≡ columns.now) }
{
    let mut found = Vec::new(alloc);
    for column in columns {
        found.push(column)?;
    }
    Ok(found)
}

/// Whether columns are seen to list no bit twice: in the order of their first bits, each comes before the next. It takes
/// memory for a reference a column.
fn are_apart(alloc: Global, columns: &[ParsedColumn]) -> Result<bool, AllocError>
    ensures { IfOk result (λ apart. IsTrue apart → IsDistinct share_bit columns.now) }
{
    let mut sorted = references(alloc, columns)?;
    sorted.sort_by(|a, b| order(a, b))?;
    Ok(rise(&sorted))
}

/// How many columns, from the first one on, are seen to list no bit twice, by halving. It takes memory for a reference a
/// column, and time for the logarithm of their number, squared, for each.
pub fn apart_count(alloc: Global, columns: &[ParsedColumn]) -> Result<usize, AllocError>
    ensures most { IfOk result (λ count. count ≤ length columns.now) }
    ensures apart { IfOk result (λ count. IsDistinct share_bit (take count columns.now)) }
{
    if are_apart(alloc, columns)? {
        return Ok(columns.len());
    }
    let mut count = 0;
    let mut beyond = columns.len();
    while beyond - count > 1 {
        let middle = count + (beyond - count) / 2;
        if are_apart(alloc, &columns[..middle])? {
            count = middle;
        } else {
            beyond = middle;
        }
    }
    Ok(count)
}
