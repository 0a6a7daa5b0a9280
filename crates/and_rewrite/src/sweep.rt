// Nodes that seem to be one function: those that are alike, or inverses of each other, under many values of the inputs.

use crate::nets::{Net, all_replaced, needed_alone, replaced};
use crate::words::{VARIABLES, inverse_if, variable_word};
use and_graph::{AndGraph, Signal};
use indexmap::IndexSet;
use std::alloc::{AllocError, Global};

/// How many words of 64 rows are tried.
const ROUNDS: u32 = 64;

/// The most inputs of which these words are all rows.
const ALL_ROWS: u32 = 12;

// Whether nodes that seem to be one function are one, where there are so many inputs.
fn is_sure(inputs: u32) -> bool {
    inputs <= ALL_ROWS
}

// Nodes of one class in the rounds before, and what the values of such a node are in this one.
#[derive(Clone, Copy, PartialEq, Eq, Hash)]
struct Class {
    before: u32,
    values: u64,
}

// Bits that look as if drawn, which depend on the number alone.
fn noise(number: u64) -> u64 {
    let mut bits = number.wrapping_mul(0x9E37_79B9_7F4A_7C15);
    bits ^= bits.wrapping_shr(30);
    bits = bits.wrapping_mul(0xBF58_476D_1CE4_E5B9);
    bits ^= bits.wrapping_shr(27);
    bits = bits.wrapping_mul(0x94D0_49BB_1331_11EB);
    bits ^ bits.wrapping_shr(31)
}

// The values of an input in a round, where not all rows are tried: half of them 1, a quarter, or all but a quarter, and so on.
fn drawn_values(input: u32, round: u32) -> u64 {
    let seed = (round as u64)
        .wrapping_mul(1 << 34)
        .wrapping_add((input as u64).wrapping_mul(4));
    let first = noise(seed);
    let second = noise(seed.wrapping_add(1));
    let third = noise(seed.wrapping_add(2));
    match round % 8 {
        0 => first & second,
        1 => first | second,
        2 => first & second & third,
        3 => first | second | third,
        4 => one_exception(input, round / 8),
        _ => first,
    }
}

// All inputs 0 in the first half of the rows and 1 in the second, but for one of 32 in turn.
fn one_exception(input: u32, part: u32) -> u64 {
    let values = variable_word(VARIABLES);
    if input / 32 == part {
        values ^ 0x1_0000_0001u64.wrapping_shl(input % 32)
    } else {
        values
    }
}

// The values of an input in a round.
fn input_values(inputs: u32, input: u32, round: u32) -> u64 {
    if !is_sure(inputs) {
        return drawn_values(input, round);
    }
    match input.checked_sub(VARIABLES as u32) {
        None => variable_word(input as usize),
        Some(bit) => inverse_if(0, round.wrapping_shr(bit) % 2 == 1),
    }
}

// The values of each node in a round. Takes memory for them.
fn all_values(alloc: Global, graph: &AndGraph, round: u32) -> Result<Vec<u64>, AllocError> {
    let mut values = Vec::new(alloc);
    values.push(0)?;
    for input in 0..graph.inputs() {
        values.push(input_values(graph.inputs(), input, round))?;
    }
    for number in graph.inputs().saturating_add(1)..graph.numbers() {
        let value = match graph.gate(number) {
            Some(gate) => value_of(&values, gate.left) & value_of(&values, gate.right),
            None => 0,
        };
        values.push(value)?;
    }
    Ok(values)
}

fn value_of(values: &[u64], signal: Signal) -> u64 {
    let value = values.get(signal.number() as usize).copied().unwrap_or(0);
    inverse_if(value, signal.is_inverse())
}

// What is known of each node: its class, and whether its value in the first row is 1.
#[derive(Clone, Copy)]
struct Known {
    class: u32,
    is_inverse: bool,
}

// Divides the classes by the values of a round. Takes memory for the classes.
fn divide(alloc: Global, known: &mut [Known], values: &[u64]) -> Result<(), AllocError> {
    let mut classes = IndexSet::new(alloc);
    for (node, value) in known.iter_mut().zip(values.iter()) {
        let class = Class {
            before: node.class,
            values: inverse_if(*value, node.is_inverse),
        };
        let (place, _) = classes.insert_full(class)?;
        node.class = u32::try_from(place).unwrap_or(0);
    }
    Ok(())
}

// The class of each node after all rounds. Takes memory for them.
fn all_known(alloc: Global, graph: &AndGraph) -> Result<Vec<Known>, AllocError> {
    let mut known = Vec::new(alloc);
    for round in 0..ROUNDS {
        let values = all_values(alloc, graph, round)?;
        if round == 0 {
            for value in values.iter() {
                known.push(Known {
                    class: 0,
                    is_inverse: *value % 2 == 1,
                })?;
            }
        }
        divide(alloc, &mut known, &values)?;
    }
    Ok(known)
}

/// The net in which each node is the first one that seems to be its function, or that one's inverse. Where all rows are tried, that is
/// so; else none is taken for a constant. Takes memory for it.
pub(crate) fn swept(alloc: Global, net: &Net) -> Result<Net, AllocError> {
    let known = all_known(alloc, &net.graph)?;
    let mut firsts = vec![in alloc; None; known.len()]?;
    let mut graph = AndGraph::new(alloc, net.graph.inputs());
    let mut signals = Vec::new(alloc);
    for number in 0..net.graph.numbers() {
        let signal = match net.graph.gate(number) {
            Some(gate) => graph.and(
                replaced(&signals, gate.left),
                replaced(&signals, gate.right),
            )?,
            None => Signal::node(number),
        };
        let signal = match known.get(number as usize) {
            Some(node) if node.class > 0 || is_sure(graph.inputs()) => first_alike(
                &mut firsts,
                *node,
                signal,
            ),
            _ => signal,
        };
        signals.push(signal)?;
    }
    let roots = all_replaced(alloc, &signals, &net.roots)?;
    needed_alone(alloc, &graph, &roots)
}

// The signal of the first node of a class for a node of it, which is its first one where there was none.
fn first_alike(firsts: &mut [Option<Signal>], node: Known, signal: Signal) -> Signal {
    match firsts.get_mut(node.class as usize) {
        Some(Some(first)) => first.inverse_if(node.is_inverse),
        Some(first) => {
            *first = Some(signal.inverse_if(node.is_inverse));
            signal
        }
        None => signal,
    }
}
