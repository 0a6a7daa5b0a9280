// The proposal of a graph that is made anew.

use crate::choosing::{Place, RootChoice};
use crate::saying::saying_of;
use and_graph::{AndGraph, Signal};
use and_rewrite::{Net, rewritten};
use bool_expr::Expr;
use boom_check::Proposal;
use machine_core::Machine;
use std::alloc::{AllocError, Global};

// What stands at a place.
fn expression_at(m: &Machine, place: Place) -> Option<&Expr> {
    match place {
        Place::Equation(k) => Some(&m.equations().as_slice().get(k)?.expr),
        Place::Load(k) => {
            let register = m.registers().as_slice().get(k / 2)?;
            Some(if k % 2 == 0 {
                &register.next
            } else {
                &register.enable
            })
        }
    }
}

// The place of what is shown at a place: that of the equation whose name alone stands there, and so on.
fn settled(m: &Machine, held: u32, place: Place) -> Place {
    let mut place = place;
    for _ in m.equations().as_slice() {
        let Some(Expr::Var(k)) = expression_at(m, place) else {
            break;
        };
        let Some(equation) = k.checked_sub(held) else {
            break;
        };
        place = Place::Equation(equation as usize);
    }
    place
}

fn put(said: &mut [Option<Expr>], place: usize, e: Expr) {
    if let Some(said) = said.get_mut(place) {
        *said = Some(e);
    }
}

// What the machine could say where its roots, in their order, are those of the net: equations that no root needs are constants.
fn net_proposal(
    alloc: Global,
    m: &Machine,
    roots: &[RootChoice],
    net: &Net,
) -> Result<Proposal, AllocError> {
    let mut saying = saying_of(alloc, net)?;
    let mut equations = Vec::new(alloc);
    for _ in m.equations().as_slice() {
        equations.push(Some(Expr::Const(false)))?;
    }
    let mut loads = Vec::new(alloc);
    for _ in m.registers().as_slice() {
        loads.push(None)?;
        loads.push(None)?;
    }
    for (root, signal) in roots.iter().zip(net.roots.iter()) {
        let e = saying.operand(*signal).expr(alloc)?;
        match settled(m, net.graph.inputs(), root.place) {
            Place::Equation(k) => put(&mut equations, k, e),
            Place::Load(k) => put(&mut loads, k, e),
        }
    }
    Ok(Proposal {
        inner: saying.inner,
        equations,
        loads,
    })
}

// The net that comes of a choice of roots.
fn net_of(
    alloc: Global,
    graph: &AndGraph,
    roots: &[RootChoice],
    is_swept: bool,
) -> Result<Option<Net>, AllocError> {
    let mut signals: Vec<Signal> = Vec::new(alloc);
    for root in roots {
        signals.push(root.now())?;
    }
    rewritten(alloc, graph, signals.as_slice(), is_swept)
}

// Whether all roots get the same in both choices.
fn are_same(choices: (&[RootChoice], &[RootChoice])) -> bool {
    for (one, other) in choices.0.iter().zip(choices.1.iter()) {
        if one.now() != other.now() {
            return false;
        }
    }
    true
}

// The net that needs less, of those that are there.
fn lighter(
    alloc: Global,
    first: Option<Net>,
    second: Option<Net>,
) -> Result<Option<Net>, AllocError> {
    let (first, second) = match (first, second) {
        (Some(first), Some(second)) => (first, second),
        (Some(net), None) | (None, Some(net)) => return Ok(Some(net)),
        (None, None) => return Ok(None),
    };
    if second.weight(alloc)? < first.weight(alloc)? {
        Ok(Some(second))
    } else {
        Ok(Some(first))
    }
}

/// What the machine could say where its gates are made anew, from the better one of two choices of its roots. `None` where they are to be
/// swept and no two nodes seem to be one function. Takes memory for the gates that are tried.
pub(crate) fn rewritten_proposal(
    alloc: Global,
    m: &Machine,
    graph: &AndGraph,
    choices: (&[RootChoice], &[RootChoice]),
    is_swept: bool,
) -> Result<Option<Proposal>, AllocError> {
    let first = net_of(alloc, graph, choices.0, is_swept)?;
    let second = if are_same(choices) {
        None
    } else {
        net_of(alloc, graph, choices.1, is_swept)?
    };
    match lighter(alloc, first, second)? {
        Some(net) => Ok(Some(net_proposal(alloc, m, choices.0, &net)?)),
        None => Ok(None),
    }
}
