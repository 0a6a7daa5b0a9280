// Which of two machines has the smaller subject graph. It is only used to choose, so nothing is promised of it.
ghost use Rattle.std.specs.Prelude.{◌^◌, ◌<◌, ◌+◌};

use machine_core::{Machine, machine_size};
use std::alloc::{AllocError, Global};
use subject_graph::Graph;

/// How many inverters and gates of two inputs a machine's graph has, each once; `None` where 32 bits can't number them.
fn gate_count(alloc: Global, m: &Machine) -> Result<Option<usize>, AllocError> {
    let names = m.vars().as_slice().len() as u64;
    let size = machine_size(m);
    if names >= 1 << 31 || size >= (1 << 31) - 2 {
        return Ok(None);
    }
    let graph = Graph::of_machine(alloc, m)?;
    Ok(Some(graph.nodes().len()))
}

/// One gate in so many is much: the number of gates says only about how wide a netlist is.
const MUCH: usize = 16;

/// Says whether a machine's graph has fewer gates than another's, or much fewer. Takes memory for both.
pub(crate) fn has_fewer_gates(
    alloc: Global,
    one: &Machine,
    other: &Machine,
    is_much: bool,
) -> Result<bool, AllocError> {
    let Some(gates) = gate_count(alloc, one)? else {
        return Ok(false);
    };
    let Some(others) = gate_count(alloc, other)? else {
        return Ok(false);
    };
    let least = if is_much { others / MUCH } else { 0 };
    Ok(gates.saturating_add(least) < others)
}
