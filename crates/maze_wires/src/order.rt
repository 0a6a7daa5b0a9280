// Steps, vias and wires in their orders.
ghost use Rattle.std.specs.Prelude.{◌≡◌, ◌≢◌, ◌↔◌, ◌+◌, ◌<◌, AllPairs, IsTrue, OnOk};
ghost use Rattle.vlsi_base.specs.Member.{In};
ghost use Rattle.grid_core.specs.declared.grid.Node.{Node};
ghost use Rattle.grid_core.specs.Grid.{ahead, above};
ghost use Rattle.maze_drawing.specs.Wiring.{via_precedes};
ghost use Rattle.maze_drawing.specs.Merge.{line_of, place_of, step_precedes, is_same_node};
ghost use Rattle.maze_wires.specs.declared.wires.Wire.{Wire};
ghost use Rattle.maze_wires.specs.Shown.{comes_before};

use crate::wires::Wire;
use grid_core::Node;
use std::alloc::AllocError;

/// Where a step stands in the order of steps: its metal, the line of the grid on which it lies, and how far along.
fn step_key(step: &Node) -> (u8, u32, u32)
    ensures { result ≡ (step.now.metal, line_of step.now, place_of step.now) }
{
    if step.metal % 2 == 0 {
        (step.metal, step.row, step.column)
    } else {
        (step.metal, step.column, step.row)
    }
}

/// Where a via stands in the order of vias, by its lower node.
pub(crate) fn via_key(via: &Node) -> (u32, u32, u8)
    ensures { result ≡ (via.now.column, via.now.row, via.now.metal) }
{
    (via.column, via.row, via.metal)
}

/// Whether a node is so many steps ahead of another.
pub(crate) fn is_ahead(from: &Node, steps: u32, to: &Node) -> bool
    ensures value { result ≡ is_same_node to.now (ahead from.now steps) }
    ensures short { IsTrue result → place_of from.now + steps < 4294967296 }
{
    let (metal, line, place) = step_key(from);
    let (its_metal, its_line, its_place) = step_key(to);
    if its_metal != metal {
        return false;
    }
    if its_line != line {
        return false;
    }
    u64::from(its_place) == u64::from(place) + u64::from(steps)
}

/// Whether a node is the one above another, on the next metal.
pub(crate) fn is_above(from: &Node, to: &Node) -> bool
    ensures { result ≡ is_same_node to.now (above from.now) }
{
    if to.column != from.column {
        return false;
    }
    if to.row != from.row {
        return false;
    }
    u16::from(to.metal) == u16::from(from.metal) + 1
}

/// Puts steps in their order, each once.
pub(crate) fn sort_steps(steps: &mut Vec<Node>) -> Result<(), AllocError>
    ensures same { OnOk result ((p : Node) → In p steps.new.items ↔ In p steps.old.items) }
    ensures ordered { OnOk result (AllPairs (λ a b. IsTrue (step_precedes a b)) steps.new.items) }
{
    steps.sort_by_key(|step| step_key(step))?;
    steps.dedup_by_key(|step| step_key(step));
    Ok(())
}

/// Puts vias in their order, each once, by their lower nodes.
pub(crate) fn sort_vias(vias: &mut Vec<Node>) -> Result<(), AllocError>
    ensures same { OnOk result ((p : Node) → In p vias.new.items ↔ In p vias.old.items) }
    ensures ordered { OnOk result (AllPairs (λ a b. IsTrue (via_precedes a b)) vias.new.items) }
{
    vias.sort_by_key(|via| via_key(via))?;
    vias.dedup_by_key(|via| via_key(via));
    Ok(())
}

/// Puts wires, no two of which begin at one node, in their order.
pub(crate) fn sort_wires(wires: &mut Vec<Wire>) -> Result<(), AllocError>
    requires different { AllPairs (λ v w. v.from ≢ w.from) wires.old.items }
    ensures same { OnOk result ((w : Wire) → In w wires.new.items ↔ In w wires.old.items) }
    ensures ordered { OnOk result (AllPairs (λ a b. IsTrue (comes_before a b)) wires.new.items) }
{
    wires.sort_by_key(|wire| (wire.from.metal, wire.from.column, wire.from.row))?;
    Ok(())
}
