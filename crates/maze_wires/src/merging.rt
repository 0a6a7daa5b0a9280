// Steps in order, merged to wires.
ghost use Rattle.std.specs.Prelude.{◌≡◌, ◌<◌, IfOk, map};
ghost use Rattle.std.specs.List.{All};
ghost use Rattle.maze_drawing.specs.Merge.{merge, place_of};
ghost use Rattle.maze_wires.specs.Shown.{shown_wire};

use crate::order::is_ahead;
use crate::wires::Wire;
use grid_core::Node;
use std::alloc::{AllocError, Global};

/// The wires of steps that stand in their order: their greatest runs. Takes memory for them.
pub(crate) fn merged(alloc: Global, steps: &[Node]) -> Result<Vec<Wire>, AllocError>
    requires ends { All (λ p. place_of p < 4294967295) steps.now }
    ensures { IfOk result (λ wires. map shown_wire wires.items ≡ merge steps.now) }
{
    let mut wires = Vec::new(alloc);
    let Some((first, rest)) = steps.split_first() else {
        return Ok(wires);
    };
    let mut wire = Wire {
        from: *first,
        steps: 1,
    };
    for step in rest {
        if is_ahead(&wire.from, wire.steps, step) {
            wire.steps += 1;
        } else {
            wires.push(wire)?;
            wire = Wire {
                from: *step,
                steps: 1,
            };
        }
    }
    wires.push(wire)?;
    Ok(wires)
}
