// Chains of links from one shape to another.
ghost use Rattle.std.specs.Prelude.{◌<◌, ◌^◌, ◌↔◌, length, IfOk, IfSome, IsNone};
ghost use Rattle.sym_shapes.specs.Chain.{IsChain, Apart};

use crate::Shape;
use crate::forest::join_all;
use crate::search::{in_order, step_of, steps_from, way};
use std::alloc::{AllocError, Global};

/// Which shapes join two: the places of a chain, the first `from` and the last `to`, each linked with the next and none
/// twice. It isn't always the shortest. None where no chain of links joins the two. Takes memory for a few entries a
/// shape.
pub fn chain(
    alloc: Global,
    shapes: &[Shape],
    from: u32,
    to: u32,
) -> Result<Option<Vec<u32>>, AllocError>
    requires room { length shapes.now < 2 ^ 32 }
    requires from_within { from < length shapes.now }
    requires to_within { to < length shapes.now }
    ensures chain { IfOk result (λ found. IfSome found (λ places. IsChain shapes.now places.items from to)) }
    ensures none { IfOk result (λ found. IsNone found ↔ Apart shapes.now from to) }
{
    let mut forest = join_all(alloc, shapes)?;
    in_order(&mut forest.links)?;
    let steps = steps_from(alloc, &forest.links, shapes.len(), to)?;
    let Some(start) = step_of(&steps, from) else {
        return Ok(None);
    };
    let places = way(alloc, &steps, start)?;
    Ok(Some(places))
}
