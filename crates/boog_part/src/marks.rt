// Which numbers of a graph are needed.
ghost use Rattle.std.specs.Prelude.{◌≡◌, ◌⊎◌, ◌↔◌, ◌<◌, ◌+◌, ℕ, length, map, IsTrue, IfOk};
ghost use Rattle.graph_theory.specs.Graph.{EachReadsEarlier};
ghost use Rattle.subject_table.specs.View.{node_view};
ghost use Rattle.cell_match.specs.Places.{times};
ghost use Rattle.boog_cuts.specs.Reads.{reads};
ghost use Rattle.boog_part.specs.Part.{IsMarked, MarksReads, MarksNeeded, IsNeededIn, AreNeeded, roots_of};

use std::alloc::{AllocError, Global};
use subject_graph::{Graph, Node};

/// Marks these numbers.
fn mark(marks: &mut [bool], numbers: &[u32])
    requires { (x : ℕ) → 0 < times x numbers.now → x < length marks.old }
    ensures { (x : ℕ) → IsMarked marks.new x ↔ (IsMarked marks.old x ⊎ (0 < times x numbers.now)) }
{
    for number in numbers {
        marks[*number as usize] = true;
    }
}

/// Marks what a node reads.
fn mark_reads(marks: &mut [bool], node: &Node)
    requires { (x : ℕ) → IsTrue (reads (node_view node.now) x) → x < length marks.old }
    ensures { MarksReads (node_view node.now) marks.old marks.new }
{
    match node {
        Node::Fixed(_) => {}
        Node::Inv(a) => mark(marks, &[*a]),
        Node::Nand(a, b) => mark(marks, &[*a, *b]),
    }
}

/// Marks what marked nodes need, from the last node to the first.
fn mark_down(marks: &mut [bool], held: usize, nodes: &[Node])
    requires long { length marks.old ≡ held + length nodes.now }
    requires earlier { EachReadsEarlier held (map node_view nodes.now) }
    ensures { MarksNeeded held (map node_view nodes.now) marks.old marks.new }
{
    let mut rest = nodes.len();
    while rest > 0 {
        rest -= 1;
        if marks[held + rest] {
            mark_reads(marks, &nodes[rest]);
        }
    }
}

/// Marks what outputs, registers and needed nodes of a graph read.
fn mark_needed(marks: &mut [bool], held: usize, graph: &Graph)
    requires long { length marks.old ≡ held + length graph.now.nodes }
    requires clear { (x : ℕ) → IsMarked marks.old x → ⊥ }
    requires earlier { EachReadsEarlier held graph.now.nodes }
    requires roots { (x : ℕ) → 0 < times x (roots_of graph.now) → x < held + length graph.now.nodes }
    ensures { (x : ℕ) → IsMarked marks.new x ↔ IsNeededIn held graph.now x }
{
    mark(marks, graph.outputs());
    mark(marks, graph.loads());
    mark_down(marks, held, graph.nodes());
}

/// For each number of a graph whether an output, a register or a needed node reads it. Takes a byte for each number.
pub(crate) fn needed_marks(alloc: Global, held: u32, graph: &Graph) -> Result<Vec<bool>, AllocError>
    requires earlier { EachReadsEarlier held graph.now.nodes }
    requires roots { (x : ℕ) → 0 < times x (roots_of graph.now) → x < held + length graph.now.nodes }
    ensures { IfOk result (λ marks. AreNeeded held graph.now marks.items) }
{
    let mut marks = vec![in alloc; false; held as usize + graph.nodes().len()]?;
    mark_needed(&mut marks, held as usize, graph);
    Ok(marks)
}
