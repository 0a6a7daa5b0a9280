// Outputs as texts, which can be found in a list of different ones.
ghost use Rattle.std.specs.Prelude.{◌≡◌, map, IfOk};
ghost use Rattle.fmi_min.specs.Moves.{digit as digit_of, digits as digits_of};

use std::alloc::{AllocError, Global};
use vlsi_base::Text;

// The digit of a bit.
fn digit(bit: bool) -> u8
    ensures { result ≡ digit_of bit }
{
    if bit { b'1' } else { b'0' }
}

// The digits of bits, one after another. Takes memory for them.
pub(crate) fn digits(alloc: Global, bits: &[bool]) -> Result<Text, AllocError>
    ensures { IfOk result (λ text. text ≡ digits_of bits.now) }
{
    let mut text = Vec::with_capacity(alloc, bits.len())?;
    for bit in bits {
        text.push(digit(*bit))?;
    }
    Ok(Text::new(text))
}
