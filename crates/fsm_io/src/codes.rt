// Bits of one name. They are ordered by numbers: 0 is the name without a bit, and k + 1 its bit k.
ghost use Rattle.std.specs.Prelude.{◌≡◌, ◌+◌, map, min, Some, IfOk, if◌then◌else◌};
ghost use Rattle.std.specs.Option.{option_map};
ghost use Rattle.vlsi_base.specs.Range.{range_bits};
ghost use Rattle.source_checks.specs.Codes.{codes_in, least_with};
ghost use Rattle.fsm_io.specs.Pieces.{bit_code, bit_named};

use std::alloc::{AllocError, Global};
use vlsi_base::{Name, Range, Text};

fn some_of(alloc: Global, numbers: &[u32]) -> Result<Vec<Option<u32>>, AllocError>
    ensures { IfOk result (λ bits. bits.items ≡ map Some numbers.now) }
{
    let mut bits = Vec::new(alloc);
    for number in numbers {
        bits.push(Some(*number))?;
    }
    Ok(bits)
}

fn bits_of(alloc: Global, range: Range) -> Result<Vec<Option<u32>>, AllocError>
    ensures { IfOk result (λ bits. map bit_code bits.items ≡ map (λ k. k + 1) (range_bits range)) }
{
    let numbers = range.bits(alloc)?;
    let bits = some_of(alloc, &numbers)?;
    Ok(bits)
}

/// A name's bits, from the left; a scalar has one without a number. Takes memory for each.
pub fn bits_in(alloc: Global, range: Option<Range>) -> Result<Vec<Option<u32>>, AllocError>
    ensures { IfOk result (λ bits. map bit_code bits.items ≡ codes_in range) }
{
    match range {
        Some(range) => bits_of(alloc, range),
        None => {
            let mut bits = Vec::new(alloc);
            bits.push(None)?;
            Ok(bits)
        }
    }
}

/// The first of two bits in their order.
#[tactic(auto, using(crate::proofs::Leasts::lesser_some, crate::proofs::Leasts::lesser_left, crate::proofs::Leasts::lesser_right))]
fn lesser(a: Option<u32>, b: Option<u32>) -> Option<u32>
    ensures { bit_code result ≡ min (bit_code a) (bit_code b) }
{
    match a {
        Some(j) => match b {
            Some(k) => Some(j.min(k)),
            None => None,
        },
        None => None,
    }
}

/// The lesser of a bit and the least so far, unless the bit passes.
pub fn least_with(passes: bool, bit: Option<u32>, least: Option<Option<u32>>) -> Option<Option<u32>>
    ensures { option_map bit_code result ≡ (if passes then option_map bit_code least else Some (least_with (bit_code bit) (option_map bit_code least))) }
{
    if passes {
        return least;
    }
    match least {
        Some(before) => Some(lesser(bit, before)),
        None => Some(bit),
    }
}

/// The name with this bit, if there is one.
pub fn name_with(
    alloc: Global,
    text: &Text,
    bit: Option<Option<u32>>,
) -> Result<Option<Name>, AllocError>
    ensures { IfOk result (λ name. name ≡ option_map (bit_named text.now) bit) }
{
    let Some(bit) = bit else {
        return Ok(None);
    };
    let text = text.copy(alloc)?;
    Ok(Some(Name { text, bit }))
}
