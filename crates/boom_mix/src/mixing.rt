// The graph of both machines, and the proposals that come of it.

use crate::choosing::{Place, RootChoice, chosen};
use crate::proposing::proposal_of;
use crate::rewriting::rewritten_proposal;
use and_graph::{AndGraph, Signal, signal_of};
use boom_check::Proposal;
use boom_literal::Literal;
use boom_muxes::{Mux, Plan};
use machine_core::Machine;
use machine_roots::roots;
use std::alloc::{AllocError, Global};

// The signals of a machine's names, in their order, and behind them those of what its registers load.
fn given_signals(
    alloc: Global,
    graph: &mut AndGraph,
    m: &Machine,
) -> Result<Vec<Signal>, AllocError> {
    let mut names = Vec::new(alloc);
    for k in 0..graph.inputs() {
        names.push(graph.input(k))?;
    }
    for equation in m.equations().as_slice() {
        let signal = signal_of(alloc, graph, &equation.expr, &names)?;
        names.push(signal)?;
    }
    let mut loads = Vec::new(alloc);
    for register in m.registers().as_slice() {
        loads.push(signal_of(alloc, graph, &register.next, &names)?)?;
        loads.push(signal_of(alloc, graph, &register.enable, &names)?)?;
    }
    for signal in loads.iter() {
        names.push(*signal)?;
    }
    Ok(names)
}

fn literal_signal(signals: &[Signal], literal: Literal) -> Signal {
    match literal {
        Literal::Constant(bit) => Signal::ZERO.inverse_if(bit),
        Literal::Name(k) => signals.get(k as usize).copied().unwrap_or(Signal::ZERO),
    }
}

// The signals of inputs and registers, and behind them those of the choices.
fn made_signals(
    alloc: Global,
    graph: &mut AndGraph,
    muxes: &[Mux],
) -> Result<Vec<Signal>, AllocError> {
    let mut signals = Vec::new(alloc);
    for k in 0..graph.inputs() {
        signals.push(graph.input(k))?;
    }
    for mux in muxes {
        let condition = literal_signal(&signals, Literal::Name(mux.select));
        let high = literal_signal(&signals, mux.high);
        let low = literal_signal(&signals, mux.low);
        let signal = graph.choice(condition, high, low)?;
        signals.push(signal)?;
    }
    Ok(signals)
}

// The literal that a plan has for a root.
fn planned(plan: &Plan, place: Place) -> Option<Literal> {
    match place {
        Place::Equation(k) => plan.equations.get(k).copied()?,
        Place::Load(k) => plan.loads.get(k).copied(),
    }
}

// The roots, as both machines say them. The names' signals are those of `given_signals`.
fn root_choices(
    alloc: Global,
    m: &Machine,
    given: &[Signal],
    made: &[Signal],
    plan: &Plan,
) -> Result<Vec<RootChoice>, AllocError> {
    let names = m.vars().as_slice().len();
    let held = names.saturating_sub(m.equations().as_slice().len());
    let mut choices = Vec::new(alloc);
    let mut loads = 0usize;
    for root in &roots(alloc, m)? {
        let (place, number) = match root.equation {
            Some(k) => (Place::Equation(k), held.saturating_add(k)),
            None => (Place::Load(loads), names.saturating_add(loads)),
        };
        if root.equation.is_none() {
            loads = loads.saturating_add(1);
        }
        choices.push(RootChoice {
            place,
            given: given.get(number).copied().unwrap_or(Signal::ZERO),
            made: planned(plan, place).map(|literal| literal_signal(made, literal)),
            is_made: false,
        })?;
    }
    Ok(choices)
}

/// The graph of a machine and of its diagrams, and its roots as they are chosen from all diagrams on, and from all given equations on.
#[derive(Drop)]
pub struct Choices {
    graph: AndGraph,
    from_made: Vec<RootChoice>,
    from_given: Vec<RootChoice>,
    is_given_better: bool,
}

/// Chooses for each root its equations or its diagram. Takes memory for a graph of the machine and of its diagrams.
pub fn choices_of(
    alloc: Global,
    m: &Machine,
    muxes: &[Mux],
    plan: &Plan,
) -> Result<Choices, AllocError> {
    let names = m.vars().as_slice().len();
    let held = names.saturating_sub(m.equations().as_slice().len());
    let mut graph = AndGraph::new(alloc, u32::try_from(held).unwrap_or(0));
    let given = given_signals(alloc, &mut graph, m)?;
    let made = made_signals(alloc, &mut graph, muxes)?;
    let mut from_made = root_choices(alloc, m, &given, &made, plan)?;
    let needed_made = chosen(alloc, &graph, &mut from_made, true)?;
    let mut from_given = from_made.to_vec(alloc)?;
    let needed_given = chosen(alloc, &graph, &mut from_given, false)?;
    Ok(Choices {
        graph,
        from_made,
        from_given,
        is_given_better: needed_given <= needed_made,
    })
}

impl Choices {
    /// What the machine could say where its gates are made anew; first, where that is asked, nodes that seem to be one function become
    /// one: `None` where no two do. `None` too where there are too many gates. Takes memory for the gates that are tried.
    pub fn rewritten(
        &self,
        alloc: Global,
        m: &Machine,
        is_swept: bool,
    ) -> Result<Option<Proposal>, AllocError> {
        let both = (self.from_made.as_slice(), self.from_given.as_slice());
        rewritten_proposal(alloc, m, &self.graph, both, is_swept)
    }

    /// What the machine could say where each root keeps its equations or gets the choices of its diagram. `None` where all keep theirs.
    pub fn mixed(
        &self,
        alloc: Global,
        m: &Machine,
        muxes: &[Mux],
        plan: &Plan,
    ) -> Result<Option<Proposal>, AllocError> {
        let roots = if self.is_given_better {
            self.from_given.as_slice()
        } else {
            self.from_made.as_slice()
        };
        if roots.iter().all(|root| !root.is_made) {
            return Ok(None);
        }
        Ok(Some(proposal_of(alloc, m, muxes, plan, roots)?))
    }
}
