// The subject graph of a machine.
ghost use Rattle.std.specs.Prelude.{◌≡◌, map, IfOk};
ghost use Rattle.subject_table.specs.View.{node_view};
ghost use Rattle.subject_graph.specs.Subject.{IsNumberable, IsSubjectGraph};

use crate::outputs::shown_numbers;
use crate::roots::{Rooted, make_rooted};
use machine_core::Machine;
use std::alloc::{AllocError, Global};
use std::marker::Model;
use subject_table::Node;

/// Inverters and gates of two inputs over the inputs and registers of a machine. The inputs have the numbers 0, 1 and so on
/// in the order of names, behind them come the registers, and behind these the nodes, each behind those that it reads.
#[derive(Drop)]
pub struct Graph {
    nodes: Vec<Node>,
    outputs: Vec<u32>,
    loads: Vec<u32>,
}

impl Model for Graph {
    ghost use Rattle.std.specs.Prelude.{map};
    ghost use Rattle.graph_theory.specs.Graph.{Graph as Meaning};
    ghost use Rattle.subject_table.specs.View.{node_view};
    ghost use Rattle.subject_graph.specs.Code.{graph_code};

    ghost Value = { Meaning };

    ghost coded = { graph_code };

    ghost view = { λ g. record { nodes = map node_view g.nodes.items; outputs = g.outputs.items; loads = g.loads.items } };
}

impl Graph {
    /// The graph of a machine. Takes memory for its nodes and roots, and while it is made for an index of the machine's
    /// names.
    pub fn of_machine(alloc: Global, m: &Machine) -> Result<Self, AllocError>
        requires { IsNumberable m.now }
        ensures { IfOk result (λ g. IsSubjectGraph m.now g) }
    {
        let Rooted {
            table,
            outputs,
            loads,
        } = make_rooted(alloc, m)?;
        let inputs = table.held - loads.len() as u32;
        let mut nodes = Vec::new(alloc);
        nodes.extend_from_slice(table.nodes.as_slice())?;
        let outputs = shown_numbers(alloc, &mut nodes, table.held, inputs, &outputs)?;
        Ok(Graph {
            nodes,
            outputs,
            loads,
        })
    }

    /// The nodes, in their order.
    pub fn nodes(&self) -> &[Node]
        ensures { map node_view result.now ≡ self.now.nodes }
    {
        &self.nodes
    }

    /// The number of what each output shows, in the order of names.
    pub fn outputs(&self) -> &[u32]
        ensures { result.now ≡ self.now.outputs }
    {
        &self.outputs
    }

    /// The number of what each register loads, in the order of names.
    pub fn loads(&self) -> &[u32]
        ensures { result.now ≡ self.now.loads }
    {
        &self.loads
    }
}
