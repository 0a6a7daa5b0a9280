// Covers made narrower step by step.
ghost use Rattle.std.specs.Prelude.{◌≡◌, ◌⊎◌, ◌<◌, ◌+◌, ℕ, List, length, map, IsTrue, IfOk};
ghost use Rattle.graph_theory.specs.Graph.{Node, EachReadsEarlier};
ghost use Rattle.subject_table.specs.View.{node_view};
ghost use Rattle.cell_match.specs.Places.{times};
ghost use Rattle.boog_cuts.specs.Reads.{reads};
ghost use Rattle.boog_cover.specs.Pruned.{IsMarked};
ghost use Rattle.boog_cover.specs.Lesser.{AreWhole, AllNeeded, ReadMarked};

use crate::needed::mark;
use boog_resub::Step;
use cell_match::{CellWord, Gate};
use cover_check::replace;
use std::alloc::{AllocError, Global};
use subject_graph::{Graph, Node as GraphNode};

/// Puts the gates of steps in place of others, each where it is seen to have the node's function.
fn replace_all(cells: &[CellWord], gates: &mut [Option<Gate>], held: usize, steps: Vec<Step>)
    ensures { (nodes : List Node) → AreWhole cells.now held nodes gates.old → AreWhole cells.now held nodes gates.new }
{
    for step in steps {
        let _is_taken = replace(
            cells,
            gates,
            held,
            step.node,
            step.gate,
            step.leaves.as_slice(),
        );
    }
}

/// The same of these gates.
pub(crate) fn replaced(
    cells: &[CellWord],
    gates: Vec<Option<Gate>>,
    held: usize,
    steps: Vec<Step>,
) -> Vec<Option<Gate>>
    ensures { (nodes : List Node) → AreWhole cells.now held nodes gates.items → AreWhole cells.now held nodes result.items }
{
    let mut gates = gates;
    replace_all(cells, &mut gates, held, steps);
    gates
}

/// Marks what a node reads.
fn mark_reads(marks: &mut [bool], node: &GraphNode)
    requires { (x : ℕ) → IsTrue (reads (node_view node.now) x) → x < length marks.old }
    ensures { (x : ℕ) → IsMarked marks.new x → IsMarked marks.old x ⊎ IsTrue (reads (node_view node.now) x) }
{
    match node {
        GraphNode::Fixed(_) => {}
        GraphNode::Inv(a) => mark(marks, &[*a]),
        GraphNode::Nand(a, b) => mark(marks, &[*a, *b]),
    }
}

/// Marks what marked nodes read, from the last node to the first.
fn mark_down(marks: &mut [bool], held: usize, nodes: &[GraphNode])
    requires long { length marks.old ≡ held + length nodes.now }
    requires earlier { EachReadsEarlier held (map node_view nodes.now) }
    ensures { (roots : List ℕ) → AllNeeded held (map node_view nodes.now) roots marks.old → AllNeeded held (map node_view nodes.now) roots marks.new }
{
    let mut rest = nodes.len();
    while rest > 0 {
        rest -= 1;
        if marks[held + rest] {
            mark_reads(marks, &nodes[rest]);
        }
    }
}

/// Marks numbers of a graph that a root or a marked node reads.
fn mark_needed(marks: &mut [bool], held: usize, graph: &Graph, roots: &[u32])
    requires long { length marks.old ≡ held + length graph.now.nodes }
    requires clear { (x : ℕ) → IsMarked marks.old x → ⊥ }
    requires earlier { EachReadsEarlier held graph.now.nodes }
    requires roots { (x : ℕ) → 0 < times x roots.now → x < held + length graph.now.nodes }
    ensures { AllNeeded held graph.now.nodes roots.now marks.new }
{
    mark(marks, roots);
    mark_down(marks, held, graph.nodes());
}

/// For each number of a graph whether it is marked, and so needed. Takes a byte for each number.
pub(crate) fn needed_marks(
    alloc: Global,
    held: u32,
    graph: &Graph,
    roots: &[u32],
) -> Result<Vec<bool>, AllocError>
    requires earlier { EachReadsEarlier held graph.now.nodes }
    requires roots { (x : ℕ) → 0 < times x roots.now → x < held + length graph.now.nodes }
    ensures { IfOk result (λ marks. AllNeeded held graph.now.nodes roots.now marks.items) }
{
    let mut marks = vec![in alloc; false; held as usize + graph.nodes().len()]?;
    mark_needed(&mut marks, held as usize, graph, roots);
    Ok(marks)
}

/// Whether each of these nodes is marked.
fn are_leaves_marked(leaves: &[u32], marks: &[bool]) -> bool
    ensures { IsTrue result → (x : ℕ) → 0 < times x leaves.now → IsMarked marks.now x }
{
    for leaf in leaves {
        let at = *leaf as usize;
        if at >= marks.len() {
            return false;
        }
        if !marks[at] {
            return false;
        }
    }
    true
}

/// Whether each node that a gate reads is marked.
pub(crate) fn are_marked(gates: &[Option<Gate>], marks: &[bool]) -> bool
    ensures { IsTrue result → ReadMarked gates.now marks.now }
{
    for gate in gates {
        if let Some(gate) = gate {
            if !are_leaves_marked(gate.leaves.as_slice(), marks) {
                return false;
            }
        }
    }
    true
}
