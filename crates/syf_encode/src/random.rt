// Numbers in a random order.
ghost use Rattle.std.specs.Prelude.{◌≡◌, ◌-◌, ◌<◌, ◌^◌, IfOk};
ghost use Rattle.fsm_machine.specs.Encoding.{shuffled};
ghost use Rattle.fsm_machine.specs.MachineOf.{up};
ghost use Rattle.syf_encode.specs.Codes.{words_of};

use rand_core::SeedableRng;
use rand_core::utils::NextWord;
use rand_pcg::Pcg32;
use std::alloc::{AllocError, Global};

// So many numbers from 0 on.
pub(crate) fn in_order(alloc: Global, count: usize) -> Result<Vec<u32>, AllocError>
    requires { count < 2 ^ 32 }
    ensures { IfOk result (λ numbers. numbers.items ≡ up 0 count) }
{
    let mut numbers = Vec::with_capacity(alloc, count)?;
    for number in 0..count {
        numbers.push(number as u32)?;
    }
    Ok(numbers)
}

/// So many numbers from 0 on, shuffled from the last place down by the words of the generator with this seed.
pub(crate) fn random_numbers(alloc: Global, count: usize, seed: u64) -> Result<Vec<u32>, AllocError>
    requires { count < 2 ^ 32 }
    ensures { IfOk result (λ numbers. numbers.items ≡ shuffled (count - 1) (words_of seed (count - 1)) (up 0 count)) }
{
    let mut numbers = in_order(alloc, count)?;
    let mut generator = Pcg32::seed_from_u64(seed);
    let mut place = count.saturating_sub(1);
    while place > 0 {
        let word = generator.next_word();
        numbers.swap(place, word as usize % (place + 1));
        place -= 1;
    }
    Ok(numbers)
}
