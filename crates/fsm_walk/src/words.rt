// The bits of the ports by a number.
ghost use Rattle.std.specs.Prelude.{◌≡◌, IfOk};
ghost use Rattle.fsm_walk.specs.Words.{word};

use bool_expr::Bits;
use std::alloc::{AllocError, Global};

/// The bits of the ports that a number stands for: each marked place has the next of its binary digits, the lowest first, and another
/// has 0. Takes memory for them.
pub fn word(alloc: Global, marks: &[bool], number: u32) -> Result<Bits, AllocError>
    ensures { IfOk result (λ bits. bits ≡ word marks.now number) }
{
    let mut bits = Vec::new(alloc);
    let mut rest = number;
    for mark in marks {
        if *mark {
            bits.push(rest % 2 == 1)?;
            rest /= 2;
        } else {
            bits.push(false)?;
        }
    }
    Ok(Bits::new(bits))
}
