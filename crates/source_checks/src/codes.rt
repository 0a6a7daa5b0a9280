// Bits of one name, by numbers: 0 is the name without a bit, and k + 1 its bit k.
ghost use Rattle.std.specs.Prelude.{◌≡◌, ◌+◌, map, filter, Some, IfOk, if◌then◌else◌};
ghost use Rattle.source_checks.specs.Codes.{AreSmall, codes_in, selected_codes, least_with, least_code, same_bool};
ghost use Rattle.source_checks.specs.Marks.{has};

use crate::Selection;
use crate::marks::{Marks, is_marked};
use std::alloc::{AllocError, Global};
use vlsi_base::Range;

/// The codes of bits of these numbers.
fn codes_of(alloc: Global, bits: &[u32]) -> Result<Vec<u64>, AllocError>
    ensures codes { IfOk result (λ codes. codes.items ≡ map (λ k. k + 1) bits.now) }
    ensures small { IfOk result (λ codes. AreSmall codes.items) }
{
    let mut codes = Vec::new(alloc);
    for bit in bits {
        codes.push(u64::from(*bit) + 1)?;
    }
    Ok(codes)
}

/// The codes of a name's bits, from the left.
pub fn codes_in(alloc: Global, range: Option<Range>) -> Result<Vec<u64>, AllocError>
    ensures codes { IfOk result (λ codes. codes.items ≡ codes_in range) }
    ensures small { IfOk result (λ codes. AreSmall codes.items) }
{
    match range {
        Some(range) => {
            let bits = range.bits(alloc)?;
            codes_of(alloc, &bits)
        }
        None => {
            let mut codes = Vec::new(alloc);
            codes.push(0)?;
            Ok(codes)
        }
    }
}

/// The codes of the bits that a target drives, where its name is declared with this range.
pub fn selected_codes(
    alloc: Global,
    range: Option<Range>,
    selection: Selection,
) -> Result<Vec<u64>, AllocError>
    ensures codes { IfOk result (λ codes. codes.items ≡ selected_codes range selection) }
    ensures small { IfOk result (λ codes. AreSmall codes.items) }
{
    match selection {
        Selection::Whole => codes_in(alloc, range),
        Selection::Bit(k) => {
            let mut codes = Vec::new(alloc);
            codes.push(u64::from(k) + 1)?;
            Ok(codes)
        }
        Selection::Bits(range) => codes_in(alloc, Some(range)),
    }
}

/// The lesser of a code and the least so far, if the code's bit is in the set, or if it isn't.
fn least_with(
    marks: &Marks,
    place: usize,
    code: u64,
    marked: bool,
    least: Option<u64>,
) -> Option<u64>
    ensures { result ≡ (if same_bool marked (has marks.now (place, code)) then Some (least_with code least) else least) }
{
    if is_marked(marks, place, code) != marked {
        return least;
    }
    match least {
        Some(before) => Some(code.min(before)),
        None => Some(code),
    }
}

/// The least of the codes whose bits are in the set, or of those whose bits aren't.
pub fn least_where(marks: &Marks, place: usize, codes: &[u64], marked: bool) -> Option<u64>
    ensures { result ≡ least_code (filter (λ code. same_bool marked (has marks.now (place, code))) codes.now) }
{
    let mut least: Option<u64> = None;
    for code in codes {
        least = least_with(marks, place, *code, marked, least);
    }
    least
}
