// Bits on which a function is 1.
ghost use Rattle.std.specs.Prelude.{◌≡◌, ◌<◌, true, false, IfOk, length};
ghost use Rattle.bdd_core.specs.Truths.{constant};
ghost use Rattle.bdd_core.specs.Branching.{truth_at};
ghost use Rattle.bdd_core.specs.Nodes.{place, IsWhole};
ghost use Rattle.bdd_core.specs.Counting.{function};

use crate::table::Table;
use std::alloc::{AllocError, Global};

// Bits of all variables on which the function of the start is 1, where it isn't 0 on all: each bit is 0, unless the function
// with it 0 is.
pub(crate) fn bits_of_one(
    alloc: Global,
    table: &Table,
    start: usize,
) -> Result<Vec<bool>, AllocError>
    requires whole { IsWhole table.now }
    requires within { start < length table.now.lists }
    requires some { place table.now.lists start ≡ constant false → ⊥ }
    ensures length { IfOk result (λ bits. length bits.items ≡ table.now.vars) }
    ensures one { IfOk result (λ bits. truth_at (function table.now start) bits.items ≡ true) }
{
    let zero = table.constant(false);
    let mut bits = Vec::new(alloc);
    let mut at = start;
    for variable in 0..table.vars() {
        let (low, high) = table.halves(at, variable);
        let bit = low == zero;
        bits.push(bit)?;
        at = if bit { high } else { low };
    }
    Ok(bits)
}
