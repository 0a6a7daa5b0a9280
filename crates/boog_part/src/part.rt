// The part of a graph that is needed.
ghost use Rattle.std.specs.Prelude.{◌≡◌, ◌<◌, ◌+◌, ℕ, length, map, IfOk};
ghost use Rattle.graph_theory.specs.Graph.{EachReadsEarlier};
ghost use Rattle.subject_table.specs.View.{node_view};
ghost use Rattle.cell_match.specs.Places.{times};
ghost use Rattle.boog_part.specs.Part.{IsNeededPart, kept_kind, AreKept, roots_of};

use crate::marks::needed_marks;
use std::alloc::{AllocError, Global};
use std::marker::Model;
use subject_graph::{Graph, Node};

/// A subject graph without the nodes that no output and no register needs: in place of each of these stands a constant, so all numbers stay.
#[derive(Drop)]
pub struct NeededPart {
    nodes: Vec<Node>,
    outputs: Vec<u32>,
    loads: Vec<u32>,
}

impl Model for NeededPart {
    ghost use Rattle.std.specs.Prelude.{map};
    ghost use Rattle.graph_theory.specs.Graph.{Graph as Meaning};
    ghost use Rattle.subject_table.specs.View.{node_view};
    ghost use Rattle.subject_graph.specs.Code.{graph_code};

    ghost Value = { Meaning };

    ghost coded = { graph_code };

    ghost view = { λ g. record { nodes = map node_view g.nodes.items; outputs = g.outputs.items; loads = g.loads.items } };
}

/// A node as it was, or a constant.
fn kept_node(node: &Node, needed: bool) -> Node
    ensures { node_view result ≡ kept_kind needed (node_view node.now) }
{
    if needed { *node } else { Node::Fixed(false) }
}

/// These nodes, with a constant in place of each that isn't marked. The first has number `held`. Takes memory for them.
fn kept_nodes(
    alloc: Global,
    held: usize,
    nodes: &[Node],
    marks: &[bool],
) -> Result<Vec<Node>, AllocError>
    requires { length marks.now ≡ held + length nodes.now }
    ensures { IfOk result (λ kept. AreKept held marks.now (map node_view nodes.now) (map node_view kept.items)) }
{
    let mut kept = Vec::new(alloc);
    for (place, node) in nodes.iter().enumerate() {
        kept.push(kept_node(node, marks[held + place]))?;
    }
    Ok(kept)
}

/// A copy of these numbers. Takes memory for them.
fn copied(alloc: Global, numbers: &[u32]) -> Result<Vec<u32>, AllocError>
    ensures { IfOk result (λ copy. copy.items ≡ numbers.now) }
{
    let mut copy = Vec::new(alloc);
    copy.extend_from_slice(numbers)?;
    Ok(copy)
}

impl NeededPart {
    /// The part of a graph that its outputs and registers need. The first node of the graph has number `held`. Takes memory for a graph of the
    /// same size, and while it is made a byte for each number.
    pub fn of_graph(alloc: Global, held: u32, graph: &Graph) -> Result<Self, AllocError>
        requires earlier { EachReadsEarlier held graph.now.nodes }
        requires roots { (x : ℕ) → 0 < times x (roots_of graph.now) → x < held + length graph.now.nodes }
        ensures part { IfOk result (λ p. IsNeededPart held graph.now p) }
        ensures earlier { IfOk result (λ p. EachReadsEarlier held p.nodes) }
    {
        let marks = needed_marks(alloc, held, graph)?;
        let nodes = kept_nodes(alloc, held as usize, graph.nodes(), &marks)?;
        Ok(NeededPart {
            nodes,
            outputs: copied(alloc, graph.outputs())?,
            loads: copied(alloc, graph.loads())?,
        })
    }

    /// The nodes, in their order.
    pub fn nodes(&self) -> &[Node]
        ensures { map node_view result.now ≡ self.now.nodes }
    {
        &self.nodes
    }

    /// The number of what each output shows, in the order of names.
    pub fn outputs(&self) -> &[u32]
        ensures { result.now ≡ self.now.outputs }
    {
        &self.outputs
    }

    /// The number of what each register loads, in the order of names.
    pub fn loads(&self) -> &[u32]
        ensures { result.now ≡ self.now.loads }
    {
        &self.loads
    }
}
