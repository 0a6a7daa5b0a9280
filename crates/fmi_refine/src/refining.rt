// Rounds, until no class changes.
ghost use Rattle.std.specs.Prelude.{◌≡◌, ◌∷◌, [], length, replicate, IfOk};
ghost use Rattle.fmi_refine.specs.Rows.{AreRows};
ghost use Rattle.fmi_refine.specs.Refined.{AreLevels, IsStable};

use crate::round::{Partition, Row, refined};
use bool_expr::Vars;
use std::alloc::{AllocError, Global};

// All states in one class.
fn one_class(alloc: Global, states: usize) -> Result<Partition, AllocError>
    ensures { IfOk result (λ made. made ≡ record { state_of = replicate states 0; kept = 0 ∷ [] }) }
{
    let mut kept = Vec::new(alloc);
    kept.push(0)?;
    Ok(Partition {
        state_of: Vars::new(vec![in alloc; 0; states]?),
        kept: Vars::new(kept),
    })
}

/// Partitions of the states, each finer than the one before: the first has one class, and each round tells those states of a class
/// apart whose outputs differ under some vector, or whose next states are told apart. The last round that changes something is the
/// last. Takes memory for the partitions.
pub fn levels(alloc: Global, rows: &[Row]) -> Result<Vec<Partition>, AllocError>
    requires { AreRows rows.now }
    ensures levels { IfOk result (λ made. AreLevels rows.now made.items) }
    ensures stable { IfOk result (λ made. IsStable rows.now made.items) }
{
    let mut levels = Vec::new(alloc);
    levels.push(one_class(alloc, rows.len())?)?;
    loop {
        let last = &levels[levels.len() - 1];
        let next = refined(alloc, rows, last.state_of.as_slice())?;
        if next.kept.as_slice().len() == last.kept.as_slice().len() {
            return Ok(levels);
        }
        levels.push(next)?;
    }
}
