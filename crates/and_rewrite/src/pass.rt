// One pass over a net, in which each node gets the gates that save most.

use crate::cuts::{Cut, all_cuts, cuts_at};
use crate::forms::{Form, built};
use crate::nets::{Net, all_replaced, first_signals, needed_alone, readers_of, replaced};
use crate::words::VARIABLES;
use and_graph::{AndGraph, Count, Readers, Signal};
use std::alloc::{AllocError, Global};

// The new graph; its readers are its own gates that are needed, and the old gates and roots that are still to come; and what stands
// for the old nodes so far.
#[derive(Drop)]
struct Pass {
    graph: AndGraph,
    readers: Readers,
    signals: Vec<Signal>,
}

// What an old node is: the signals that its gate reads now, and how often it is read itself.
#[derive(Clone, Copy)]
struct Place {
    left: Signal,
    right: Signal,
    count: Count,
}

impl Pass {
    // How much would be needed with the signal in the place of an old node, whose gate is out.
    fn weight_with(
        &mut self,
        alloc: Global,
        count: Count,
        signal: Signal,
    ) -> Result<usize, AllocError> {
        self.readers.read_times(alloc, &self.graph, signal, count)?;
        let weight = self.readers.weight();
        self.readers.leave_times(alloc, &self.graph, signal, count)?;
        Ok(weight)
    }

    // How much would be needed with a new gate over these leaves in the place of an old node, whose gate is out.
    fn least_over(&mut self, alloc: Global, form: &Form) -> Result<usize, AllocError> {
        for leaf in form.leaves {
            self.readers.read(alloc, &self.graph, leaf)?;
        }
        let weight = self.readers.weight();
        for leaf in form.leaves {
            self.readers.leave(alloc, &self.graph, leaf)?;
        }
        Ok(weight.saturating_add(NEW_WEIGHT))
    }

    // A cut's function over what stands for its leaves.
    fn form(&self, cut: &Cut) -> Form {
        let mut leaves = [Signal::ZERO; VARIABLES];
        for (leaf, node) in leaves.iter_mut().zip(cut.leaves.iter()) {
            *leaf = replaced(&self.signals, Signal::node(*node));
        }
        Form {
            word: cut.word,
            leaves,
        }
    }

    // The signal for an old node, whose gate is out, that needs the least: the gate that it was, or one that is built from a cut; of
    // several that need as much, the first, or the last.
    fn best(
        &mut self,
        alloc: Global,
        place: Place,
        cuts: &[Cut],
        is_last: bool,
    ) -> Result<Signal, AllocError> {
        let mut best = self.graph.and(place.left, place.right)?;
        self.readers.extend(&self.graph)?;
        let mut least = self.weight_with(alloc, place.count, best)?;
        for cut in cuts {
            if cut.leaves.len() < 2 {
                continue;
            }
            let form = self.form(cut);
            if self.least_over(alloc, &form)? > least {
                continue;
            }
            let signal = built(alloc, &mut self.graph, &self.readers, form, DEPTH)?;
            self.readers.extend(&self.graph)?;
            let weight = self.weight_with(alloc, place.count, signal)?;
            if weight < least || is_last && weight == least {
                least = weight;
                best = signal;
            }
        }
        Ok(best)
    }

    // Puts the best signal in for an old node, whose gate goes.
    fn put(
        &mut self,
        alloc: Global,
        place: Place,
        cuts: &[Cut],
        is_last: bool,
    ) -> Result<Signal, AllocError> {
        self.readers.leave(alloc, &self.graph, place.left)?;
        self.readers.leave(alloc, &self.graph, place.right)?;
        let signal = self.best(alloc, place, cuts, is_last)?;
        self.readers
            .read_times(alloc, &self.graph, signal, place.count)?;
        Ok(signal)
    }
}

/// What a new gate and an inverter add to the weight: a cut over which less than this can be saved isn't tried.
const NEW_WEIGHT: usize = 3;

/// More than the variables of a word.
const DEPTH: u32 = 8;

// A pass at its beginning: the constant and the inputs, which are read as in the old net.
fn begun(alloc: Global, old: &AndGraph, counts: &Readers) -> Result<Pass, AllocError> {
    let graph = AndGraph::new(alloc, old.inputs());
    let mut readers = Readers::new(alloc, &graph)?;
    let signals = first_signals(alloc, old)?;
    for signal in signals.iter() {
        let count = counts.count(signal.number());
        readers.read_times(alloc, &graph, *signal, count)?;
    }
    Ok(Pass {
        graph,
        readers,
        signals,
    })
}

/// The net after a pass. Takes memory for the cuts of its nodes, and for all gates that are tried.
pub(crate) fn passed(alloc: Global, net: &Net, is_last: bool) -> Result<Net, AllocError> {
    let counts = readers_of(alloc, &net.graph, &net.roots)?;
    let cuts = all_cuts(alloc, &net.graph)?;
    let mut pass = begun(alloc, &net.graph, &counts)?;
    for number in net.graph.inputs().saturating_add(1)..net.graph.numbers() {
        let Some(gate) = net.graph.gate(number) else {
            continue;
        };
        let place = Place {
            left: replaced(&pass.signals, gate.left),
            right: replaced(&pass.signals, gate.right),
            count: counts.count(number),
        };
        let signal = pass.put(alloc, place, cuts_at(&cuts, number), is_last)?;
        pass.signals.push(signal)?;
    }
    let roots = all_replaced(alloc, &pass.signals, &net.roots)?;
    needed_alone(alloc, &pass.graph, &roots)
}
