// What the passes work with.

use crate::forms::{Form, Forms};
use crate::lists::{copied, has};
use crate::net::{Columns, Net, columns_of};
use crate::search::{AllFound, Parts, find};
use crate::timing::{Time, Timing};
use crate::trial::Trial;
use crate::window::Window;
use arrayvec::ArrayVec;
use cell_match::{CellWord, Gate};
use std::alloc::{AllocError, Global};

/// A cover that changes, what a step would gain, the forms that cells have, and the columns gained so far.
#[derive(Drop)]
pub(crate) struct Work {
    pub(crate) net: Net,
    pub(crate) gained: Columns,
    pub(crate) timing: Timing,
    trial: Trial,
    forms: Forms,
    places: Vec<u32>,
}

/// The best gate so far, what it gains, and when it has its bit.
#[derive(Drop)]
struct Best {
    gain: Columns,
    arrival: Time,
    gate: Option<Gate>,
}

/// Whether a node stands twice in a list.
fn has_twice(nodes: &[u32]) -> bool {
    for k in 0..nodes.len() {
        if has(&nodes[..k], nodes[k]) {
            return true;
        }
    }
    false
}

impl Work {
    pub(crate) fn new(
        alloc: Global,
        cells: &[CellWord],
        areas: &[u32],
        gates: &[Option<Gate>],
        marks: &[bool],
        roots: &[u32],
    ) -> Result<Work, AllocError> {
        let net = Net::new(alloc, gates, marks, roots)?;
        let timing = Timing::new(alloc, cells, &net)?;
        Ok(Work {
            net,
            gained: 0,
            timing,
            trial: Trial::new(alloc),
            forms: Forms::new(alloc, cells, areas)?,
            places: vec![in alloc; 0u32; gates.len()]?,
        })
    }

    /// A window of a node; of leaves that are as good to open, the one of the least number is, or of the greatest.
    pub(crate) fn window(&mut self, cells: &[CellWord], node: u32, opens_first: bool) -> Window {
        Window::of(cells, &self.net, &mut self.places, node, opens_first)
    }

    /// Columns of the gate of a node.
    fn own_columns(&self, areas: &[u32], node: u32) -> Columns {
        match self.net.gate(node) {
            Some(gate) => columns_of(areas, gate.cell),
            None => 0,
        }
    }

    /// The columns that fall away when the gate of a node does, where these are read besides.
    fn freed(&mut self, areas: &[u32], node: u32, beside: &[u32]) -> Result<Columns, AllocError> {
        let old = self.net.leaves(node);
        self.trial.begin();
        self.trial.read_all(&mut self.net, areas, beside, true)?;
        self.trial
            .read_all(&mut self.net, areas, old.as_slice(), false)?;
        Ok(
            self.own_columns(areas, node)
                .saturating_sub(self.trial.columns),
        )
    }

    /// What a gate in place of that of a node gains.
    fn gain(&mut self, areas: &[u32], node: u32, gate: &Gate) -> Result<Columns, AllocError> {
        let leaves: ArrayVec<u32, 6> = copied(gate.leaves.as_slice());
        let freed = self.freed(areas, node, leaves.as_slice())?;
        Ok(freed.saturating_sub(columns_of(areas, gate.cell)))
    }

    /// Puts a gate in place of that of a node.
    pub(crate) fn change(
        &mut self,
        areas: &[u32],
        node: u32,
        gate: &Gate,
    ) -> Result<(), AllocError> {
        let gain = self.gain(areas, node, gate)?;
        self.gained = self.gained.saturating_add(gain);
        self.net.set(
            node,
            Gate {
                cell: gate.cell,
                leaves: copied(gate.leaves.as_slice()),
            },
        );
        Ok(())
    }

    /// Takes a gate of the form over these nodes, where they differ and it gains more than the best so far.
    fn consider(
        &mut self,
        areas: &[u32],
        form: &Form,
        node: u32,
        nodes: &[u32],
        best: &mut Best,
    ) -> Result<(), AllocError> {
        let gate = form.gate(nodes);
        if has_twice(nodes) || self.net.is_like(node, &gate) {
            return Ok(());
        }
        let gain = self.gain(areas, node, &gate)?;
        self.trial.undo(&mut self.net);
        let arrival = self.timing.arrival_by(&self.net, node, &gate);
        let is_better = gain > best.gain || gain == best.gain && arrival < best.arrival;
        if is_better && self.timing.may_stand(&self.net, node, &gate) {
            *best = Best {
                gain,
                arrival,
                gate: Some(gate),
            };
        }
        Ok(())
    }

    /// Takes the gate that gains most of those of one form.
    fn consider_form(
        &mut self,
        areas: &[u32],
        window: &Window,
        parts: &Parts,
        form: &Form,
        best: &mut Best,
    ) -> Result<(), AllocError> {
        let mut found = AllFound::new();
        find(window, parts, form, &mut found);
        for one in found.iter() {
            let nodes = window.nodes_at(one.places());
            self.consider(areas, form, window.node, nodes.as_slice(), best)?;
        }
        Ok(())
    }

    /// Takes the gate that gains most of those whose forms have variables and value inverted or not. So many columns fall away when the
    /// node's gate does.
    fn consider_forms(
        &mut self,
        areas: &[u32],
        window: &Window,
        parts: &Parts,
        freed: Columns,
        best: &mut Best,
    ) -> Result<(), AllocError> {
        for number in 0..self.forms.forms.len() {
            let Some(form) = self.forms.forms.get(number) else {
                break;
            };
            let form = *form;
            if parts.is_for(&form) && freed.saturating_sub(form.area) >= best.gain {
                self.consider_form(areas, window, parts, &form, best)?;
            }
        }
        Ok(())
    }

    /// The gate that gains most for the window's node, of those the one that has its bit first; one that gains nothing is later than the
    /// node's own by no time.
    pub(crate) fn best(
        &mut self,
        areas: &[u32],
        window: &Window,
    ) -> Result<Option<Gate>, AllocError> {
        let freed = self.freed(areas, window.node, &[])?;
        self.trial.undo(&mut self.net);
        let mut best = Best {
            gain: 0,
            arrival: self.timing.arrival(window.node).saturating_add(1),
            gate: None,
        };
        for is_negative in [false, true] {
            for is_inverted in [false, true] {
                let parts = Parts::of(window, is_negative, is_inverted);
                self.consider_forms(areas, window, &parts, freed, &mut best)?;
            }
        }
        Ok(best.gate)
    }
}
