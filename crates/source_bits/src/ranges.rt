// The bits of one name.
ghost use Rattle.std.specs.Prelude.{◌≡◌, ◌+◌, ◌<◌, ◌≤◌, ◌^◌, ℕ, List, [], length, map, Some, IfOk};
ghost use Rattle.std.specs.List.{slice_get};
ghost use Rattle.source_checks.specs.Symbols.{names_in};
ghost use Rattle.source_bits.specs.Numbering.{named_bit, IsOffset, number_in, LiesWithin};

use std::alloc::{AllocError, Global};
use vlsi_base::Range;

/// How a name is declared: the number of its first bit, and the range of a vector.
#[derive(Clone, Copy)]
pub(crate) struct Declared {
    pub first: u32,
    pub range: Option<Range>,
}

/// How many bits a name has.
pub(crate) fn width(range: Option<Range>) -> u64
    ensures { (text : List ℕ) → result ≡ length (names_in text range) }
{
    match range {
        Some(range) => range.width(),
        None => 1,
    }
}

/// The bits of these numbers.
fn numbered(alloc: Global, numbers: &[u32]) -> Result<Vec<Option<u32>>, AllocError>
    ensures { IfOk result (λ bits. bits.items ≡ map (λ k. Some k) numbers.now) }
{
    let mut bits = Vec::new(alloc);
    for number in numbers {
        bits.push(Some(*number))?;
    }
    Ok(bits)
}

/// The bits of a name, from the left: `None` for a name without bits.
#[tactic(auto, using(crate::proofs::Ranging::coded))]
pub(crate) fn bits_in(alloc: Global, range: Option<Range>) -> Result<Vec<Option<u32>>, AllocError>
    ensures { IfOk result (λ bits. (text : List ℕ) → map (named_bit text) bits.items ≡ names_in text range) }
{
    match range {
        Some(range) => {
            let numbers = range.bits(alloc)?;
            numbered(alloc, &numbers)
        }
        None => {
            let mut bits = Vec::new(alloc);
            bits.push(None)?;
            Ok(bits)
        }
    }
}

/// Where a bit stands in its range, from the left.
fn offset_in(range: Range, bit: u32) -> Option<u32>
    ensures { (text : List ℕ) → IsOffset (names_in text (Some range)) (named_bit text (Some bit)) result }
{
    if range.falls {
        if bit < range.right {
            return None;
        }
        if range.left < bit {
            return None;
        }
        Some(range.left - bit)
    } else {
        if bit < range.left {
            return None;
        }
        if range.right < bit {
            return None;
        }
        Some(bit - range.left)
    }
}

/// Where a bit stands among those of its name, from the left.
fn offset(range: Option<Range>, bit: Option<u32>) -> Option<u32>
    ensures { (text : List ℕ) → IsOffset (names_in text range) (named_bit text bit) result }
{
    match range {
        Some(range) => match bit {
            Some(bit) => offset_in(range, bit),
            None => None,
        },
        None => match bit {
            Some(_) => None,
            None => Some(0),
        },
    }
}

/// The number of a bit whose name is declared so, and the total where it isn't declared.
pub(crate) fn number_in(total: u32, declared: Option<Declared>, bit: Option<u32>) -> u32
    requires { LiesWithin total declared }
    ensures { (text : List ℕ) → result ≡ number_in total declared (named_bit text bit) }
{
    match declared {
        Some(declared) => match offset(declared.range, bit) {
            Some(k) => declared.first + k,
            None => total,
        },
        None => total,
    }
}

/// The bit that stands at a place among those of a name.
pub(crate) fn bit_at(range: Option<Range>, k: u32) -> Option<u32>
    requires { k < length (names_in [] range) }
    ensures { (text : List ℕ) → slice_get (names_in text range) k ≡ Some (named_bit text result) }
{
    match range {
        Some(range) => {
            if range.falls {
                Some(range.left - k)
            } else {
                Some(range.left + k)
            }
        }
        None => None,
    }
}
