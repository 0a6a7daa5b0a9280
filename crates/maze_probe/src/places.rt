// Places at random.
ghost use Rattle.std.specs.Prelude.{◌≡◌, ◌≤◌, ◌/◌, max, IfOk};
ghost use Rattle.maze_probe.specs.Spots.{AreSpread, AreApart};

use rand::seq::SliceRandom;
use rand_core::SeedableRng;
use rand_core::utils::NextWord;
use rand_pcg::Pcg32;
use std::alloc::{AllocError, Global};

/// So many places that rise: one at random in each of as many equal shares of those below a limit.
fn spread(alloc: Global, limit: u32, count: u32, words: &mut Pcg32) -> Result<Vec<u32>, AllocError>
    requires { count ≤ limit }
    ensures { IfOk result (λ places. AreSpread (limit / max count 1) count places.items) }
{
    let share = limit / count.max(1);
    let mut places = Vec::new(alloc);
    for at in 0..count {
        places.push(at * share + words.next_word() % share)?;
    }
    Ok(places)
}

/// So many different places below a limit, spread over them and shuffled, by the words of the generator with this seed. Takes memory
/// for them.
pub fn places(alloc: Global, limit: u32, count: u32, seed: u32) -> Result<Vec<u32>, AllocError>
    requires { count ≤ limit }
    ensures { IfOk result (λ places. AreApart limit count places.items) }
{
    let mut words = Pcg32::seed_from_u64(u64::from(seed));
    let mut places = spread(alloc, limit, count, &mut words)?;
    places.shuffle(&mut words);
    Ok(places)
}
