// Which gates belong to their users' trees.
ghost use Rattle.std.specs.Prelude.{◌≡◌, ◌==◌, ◌&&◌, ◌<◌, ◌≤◌, ◌+◌, ◌^◌, ◌∷◌, [], ℕ, map, length, min, slice_index, IfOk};
ghost use Rattle.bool_expr.specs.Expression.{bit};
ghost use Rattle.graph_theory.specs.Graph.{EachReadsEarlier, is_logic};
ghost use Rattle.subject_table.specs.View.{node_view};
ghost use Rattle.cell_match.specs.Places.{times};
ghost use Rattle.boog_tree.specs.Trees.{pins, pin_uses, root_uses, is_gate};
ghost use Rattle.boog_tree.specs.Counted.{AreInner, IsRaised};

use boog_part::NeededPart;
use std::alloc::{AllocError, Global};
use subject_graph::Node;

/// Counts one use more of a number, up to 255.
fn raise(uses: &mut [u8], number: u32)
    requires { number < length uses.old }
    ensures { IsRaised uses.old (number ∷ []) uses.new }
{
    let at = number as usize;
    uses[at] = uses[at].saturating_add(1);
}

/// Counts a use of each of these numbers.
fn raise_all(uses: &mut [u8], numbers: &[u32])
    requires { (x : ℕ) → 0 < times x numbers.now → x < length uses.old }
    ensures { IsRaised uses.old numbers.now uses.new }
{
    for number in numbers {
        raise(uses, *number);
    }
}

/// Counts the pins of a node.
fn raise_pins(uses: &mut [u8], node: &Node)
    requires { (x : ℕ) → 0 < times x (pins (node_view node.now)) → x < length uses.old }
    ensures { IsRaised uses.old (pins (node_view node.now)) uses.new }
{
    match node {
        Node::Fixed(_) => {}
        Node::Inv(a) => raise(uses, *a),
        Node::Nand(a, b) => {
            raise(uses, *a);
            raise(uses, *b);
        }
    }
}

fn is_logic(node: &Node) -> bool
    ensures { result ≡ is_logic (node_view node.now) }
{
    match node {
        Node::Fixed(_) => false,
        Node::Inv(_) | Node::Nand(_, _) => true,
    }
}

/// Whether a number is that of a gate. The first node has number `held`.
pub(crate) fn is_gate(held: usize, nodes: &[Node], number: usize) -> bool
    requires { number < held + length nodes.now }
    ensures { result ≡ is_gate held (map node_view nodes.now) number }
{
    number >= held && is_logic(&nodes[number - held])
}

/// Whether a gate is used exactly once, and that by a pin.
fn is_used_once(gate: bool, pins: u8, roots: u8) -> bool
    ensures { result ≡ (gate && (pins == 1 && roots == 0)) }
{
    gate && pins == 1 && roots == 0
}

/// Counts the pins of all nodes.
fn count_pins(uses: &mut [u8], nodes: &[Node])
    requires inside { (x : ℕ) → 0 < pin_uses x (map node_view nodes.now) → x < length uses.old }
    requires none { (x : ℕ) → slice_index uses.old x ≡ 0 }
    ensures { (x : ℕ) → slice_index uses.new x ≡ min (pin_uses x (map node_view nodes.now)) 255 }
{
    for node in nodes {
        raise_pins(uses, node);
    }
}

/// Counts the outputs and registers that read each number.
fn count_roots(uses: &mut [u8], graph: &NeededPart)
    requires inside { (x : ℕ) → 0 < root_uses x graph.now → x < length uses.old }
    requires none { (x : ℕ) → slice_index uses.old x ≡ 0 }
    ensures { (x : ℕ) → slice_index uses.new x ≡ min (root_uses x graph.now) 255 }
{
    raise_all(uses, graph.outputs());
    raise_all(uses, graph.loads());
}

/// The marks by what is counted. Takes memory for them.
fn marked(
    alloc: Global,
    held: u32,
    graph: &NeededPart,
    by_pins: &[u8],
    by_roots: &[u8],
) -> Result<Vec<bool>, AllocError>
    requires numbers { held + length graph.now.nodes < 2 ^ 32 }
    requires long { length by_pins.now ≡ held + length graph.now.nodes }
    requires long_too { length by_roots.now ≡ held + length graph.now.nodes }
    requires pins { (x : ℕ) → slice_index by_pins.now x ≡ min (pin_uses x graph.now.nodes) 255 }
    requires roots { (x : ℕ) → slice_index by_roots.now x ≡ min (root_uses x graph.now) 255 }
    ensures { IfOk result (λ marks. AreInner held graph.now marks.items) }
{
    let mut inner = Vec::new(alloc);
    for number in 0..by_pins.len() {
        let gate = is_gate(held as usize, graph.nodes(), number);
        inner.push(is_used_once(gate, by_pins[number], by_roots[number]))?;
    }
    Ok(inner)
}

/// For each number whether it is that of a gate which is used exactly once, and that by another gate: an input or a register is none. Takes
/// three bytes for each number.
pub fn inner_gates(alloc: Global, held: u32, graph: &NeededPart) -> Result<Vec<bool>, AllocError>
    requires numbers { held + length graph.now.nodes < 2 ^ 32 }
    requires earlier { EachReadsEarlier held graph.now.nodes }
    requires roots { (x : ℕ) → 0 < root_uses x graph.now → x < held + length graph.now.nodes }
    ensures { IfOk result (λ marks. AreInner held graph.now marks.items) }
{
    let count = held as usize + graph.nodes().len();
    let mut by_pins = vec![in alloc; 0u8; count]?;
    count_pins(&mut by_pins, graph.nodes());
    let mut by_roots = vec![in alloc; 0u8; count]?;
    count_roots(&mut by_roots, graph);
    marked(alloc, held, graph, &by_pins, &by_roots)
}
