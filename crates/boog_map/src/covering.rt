// The gates that stand for the nodes of a graph.
ghost use Rattle.std.specs.Prelude.{◌≡◌, IfOk};
ghost use Rattle.graph_theory.specs.Graph.{held_count};
ghost use Rattle.subject_graph.specs.Subject.{IsSubjectGraph};
ghost use Rattle.boog_cover.specs.Covered.{HasCells, IsCovered};
ghost use Rattle.boog_map.specs.Netlist.{HasRoomForCells};
ghost use Rattle.boog_map.specs.Tied.{gate_words, HaveFewInputs};
ghost use Rattle.boog_map.specs.Mapped.{root_numbers};

use crate::choice::Parts;
use crate::count::held_count;
use boog_cover::cover;
use cell_match::Gate;
use machine_core::Machine;
use std::alloc::{AllocError, Global};
use subject_graph::Graph;

/// What outputs show and registers load.
fn root_numbers(alloc: Global, graph: &Graph) -> Result<Vec<u32>, AllocError>
    ensures { IfOk result (λ roots. roots.items ≡ root_numbers graph.now) }
{
    let mut roots = Vec::new(alloc);
    roots.extend_from_slice(graph.outputs())?;
    roots.extend_from_slice(graph.loads())?;
    Ok(roots)
}

/// Gates of these cells that cover the graph. Takes memory for the cuts of its nodes.
pub(crate) fn covering(
    alloc: Global,
    machine: &Machine,
    graph: &Graph,
    parts: &Parts,
) -> Result<Vec<Option<Gate>>, AllocError>
    requires graph { IsSubjectGraph machine.now graph.now }
    requires few { HasRoomForCells machine.now }
    requires inputs { HaveFewInputs (gate_words parts.now) }
    requires has { HasCells (gate_words parts.now) }
    ensures { IfOk result (λ gates.
        IsCovered (gate_words parts.now) (held_count machine.now) graph.now.nodes (root_numbers graph.now) gates.items) }
{
    let words = parts.cells.words.as_slice();
    let areas = parts.cells.areas.as_slice();
    let roots = root_numbers(alloc, graph)?;
    cover(alloc, words, areas, held_count(machine), graph, &roots)
}
