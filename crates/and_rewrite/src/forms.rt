// Gates for a function of some signals.

use crate::words::{VARIABLES, chosen, cofactor, depends, support};
use and_graph::{AndGraph, Readers, Signal};
use std::alloc::{AllocError, Global};

/// A function of signals.
#[derive(Clone, Copy)]
pub(crate) struct Form {
    pub(crate) word: u64,
    pub(crate) leaves: [Signal; VARIABLES],
}

#[derive(Clone, Copy)]
enum Operator {
    And,
    Or,
    Xor,
}

// What a function reads two of its variables through alone: the gate, and the function where that is 1 and where it is 0.
#[derive(Clone, Copy)]
struct Joint {
    is_xor: bool,
    left: Signal,
    right: Signal,
    high: u64,
    low: u64,
}

// The joint of two variables, where there is one.
fn joint_of(form: &Form, first: usize, second: usize) -> Option<Joint> {
    let (Some(left), Some(right)) = (form.leaves.get(first), form.leaves.get(second)) else {
        return None;
    };
    let low = cofactor(form.word, second, false);
    let high = cofactor(form.word, second, true);
    let neither = cofactor(low, first, false);
    let one = cofactor(low, first, true);
    let other = cofactor(high, first, false);
    let both = cofactor(high, first, true);
    let (is_xor, no_left, no_right, high, low) = if neither == both && one == other {
        (true, false, false, one, both)
    } else if neither == one && one == other {
        (false, false, false, both, one)
    } else if neither == other && other == both {
        (false, false, true, one, both)
    } else if neither == one && one == both {
        (false, true, false, other, both)
    } else if one == other && other == both {
        (false, true, true, neither, both)
    } else {
        return None;
    };
    Some(Joint {
        is_xor,
        left: left.inverse_if(no_left),
        right: right.inverse_if(no_right),
        high,
        low,
    })
}

// Whether the joint's gate is there and read.
fn is_there(graph: &AndGraph, readers: &Readers, joint: &Joint) -> bool {
    if joint.is_xor {
        return false;
    }
    match graph.found(joint.left, joint.right) {
        Some(signal) => readers.times(signal.number()) > 0,
        None => false,
    }
}

// A joint, the first of its variables, and whether its gate is there.
#[derive(Clone, Copy)]
struct Found {
    variable: usize,
    joint: Joint,
    is_there: bool,
}

fn has_gate(found: Option<Found>) -> bool {
    match found {
        Some(found) => found.is_there,
        None => false,
    }
}

// A joint whose gate is there; else the first one.
fn found_joint(graph: &AndGraph, readers: &Readers, form: &Form) -> Option<Found> {
    let mut any = None;
    for variable in 0..VARIABLES {
        if !depends(form.word, variable) {
            continue;
        }
        for second in variable + 1..VARIABLES {
            if !depends(form.word, second) {
                continue;
            }
            let Some(joint) = joint_of(form, variable, second) else {
                continue;
            };
            let is_there = is_there(graph, readers, &joint);
            let found = Found {
                variable,
                joint,
                is_there,
            };
            if is_there {
                return Some(found);
            }
            any = any.or(Some(found));
        }
    }
    any
}

// Puts the joint's gate in the place of its first variable.
fn put_in(
    graph: &mut AndGraph,
    form: &Form,
    variable: usize,
    joint: Joint,
) -> Result<Form, AllocError> {
    let signal = if joint.is_xor {
        graph.xor(joint.left, joint.right)?
    } else {
        graph.and(joint.left, joint.right)?
    };
    let mut leaves = form.leaves;
    if let Some(leaf) = leaves.get_mut(variable) {
        *leaf = signal;
    }
    Ok(Form {
        word: chosen(variable, joint.high, joint.low),
        leaves,
    })
}

// A variable that stands outside: the operator that joins it with the rest, and the rest.
fn outer_variable(form: &Form) -> Option<(Operator, Signal, u64)> {
    for (variable, leaf) in form.leaves.iter().enumerate() {
        let low = cofactor(form.word, variable, false);
        let high = cofactor(form.word, variable, true);
        if low == high {
            continue;
        }
        if high == 0 {
            return Some((Operator::And, leaf.inverse(), low));
        }
        if low == 0 {
            return Some((Operator::And, *leaf, high));
        }
        if high == u64::MAX {
            return Some((Operator::Or, *leaf, low));
        }
        if low == u64::MAX {
            return Some((Operator::Or, leaf.inverse(), high));
        }
        if low == !high {
            return Some((Operator::Xor, *leaf, low));
        }
    }
    None
}

// The variable whose two halves depend on the fewest variables, and of these one of which the function is monotonous.
fn best_variable(word: u64) -> usize {
    let mut best = 0;
    let mut least = u32::MAX;
    for variable in 0..VARIABLES {
        let low = cofactor(word, variable, false);
        let high = cofactor(word, variable, true);
        if low == high {
            continue;
        }
        let is_mixed = low & !high != 0 && high & !low != 0;
        let cost = support(low)
            .saturating_add(support(high))
            .saturating_mul(2)
            .saturating_add(is_mixed as u32);
        if cost < least {
            least = cost;
            best = variable;
        }
    }
    best
}

// The first function where the signal is 1, and the second where it is 0.
fn joined_halves(
    graph: &mut AndGraph,
    signal: Signal,
    high: (u64, Signal),
    low: (u64, Signal),
) -> Result<Signal, AllocError> {
    if low.0 & !high.0 == 0 {
        let more = graph.and(signal, high.1)?;
        graph.or(more, low.1)
    } else if high.0 & !low.0 == 0 {
        let more = graph.and(signal.inverse(), low.1)?;
        graph.or(more, high.1)
    } else {
        graph.choice(signal, high.1, low.1)
    }
}

// Takes joints and outer variables away until there are none, gates that are there and read first.
fn reduced(
    graph: &mut AndGraph,
    readers: &Readers,
    form: Form,
    outer: &mut Vec<(Operator, Signal)>,
) -> Result<Form, AllocError> {
    let mut form = form;
    for _ in 0..VARIABLES {
        let found = found_joint(graph, readers, &form);
        if !has_gate(found) {
            if let Some((operator, signal, rest)) = outer_variable(&form) {
                outer.push((operator, signal))?;
                form.word = rest;
                continue;
            }
        }
        let Some(found) = found else {
            break;
        };
        form = put_in(graph, &form, found.variable, found.joint)?;
    }
    Ok(form)
}

/// The signal of a function, whose gates are put into the graph: those that are there and read are taken before others. The depth is
/// greater than the number of its variables. Takes memory for the gates.
pub(crate) fn built(
    alloc: Global,
    graph: &mut AndGraph,
    readers: &Readers,
    form: Form,
    depth: u32,
) -> Result<Signal, AllocError> {
    let Some(rest) = depth.checked_sub(1) else {
        return Ok(Signal::ZERO);
    };
    let mut outer = Vec::new(alloc);
    let form = reduced(graph, readers, form, &mut outer)?;
    let mut signal = Signal::ZERO.inverse_if(form.word == u64::MAX);
    if form.word != 0 && form.word != u64::MAX {
        let variable = best_variable(form.word);
        let low = cofactor(form.word, variable, false);
        let high = cofactor(form.word, variable, true);
        let leaves = form.leaves;
        let first = built(alloc, graph, readers, Form { word: high, leaves }, rest)?;
        let second = built(alloc, graph, readers, Form { word: low, leaves }, rest)?;
        let condition = leaves.get(variable).copied().unwrap_or(Signal::ZERO);
        signal = joined_halves(graph, condition, (high, first), (low, second))?;
    }
    for (operator, other) in outer.iter().rev() {
        signal = match operator {
            Operator::And => graph.and(signal, *other)?,
            Operator::Or => graph.or(signal, *other)?,
            Operator::Xor => graph.xor(signal, *other)?,
        };
    }
    Ok(signal)
}
