// The best cell for each node.
ghost use Rattle.std.specs.Prelude.{◌≡◌, ◌<◌, ◌≤◌, ◌+◌, ℕ, List, map, length, Option, Some, None, IfOk, IfSome, IfNone};
ghost use Rattle.net_theory.specs.Sources.{IsNumber};
ghost use Rattle.graph_theory.specs.Graph.{Node};
ghost use Rattle.cell_match.specs.declared.gate.Gate.{Gate};
ghost use Rattle.cell_match.specs.Places.{times};
ghost use Rattle.boog_tight.specs.Cover.{gate_at};
ghost use Rattle.cell_match.specs.Matches.{IsTable};
ghost use Rattle.cell_match.specs.declared.cut.Cut.{Cut};
ghost use Rattle.boog_cuts.specs.Cuts.{AreCuts, IsCutTable};
ghost use Rattle.boog_cover.specs.Choices.{IsOfCut, NoneOfCuts, AreChosen};

use boog_cuts::CutTable;
use cell_match::{CellWord, Cut, Gate, Table, matched};
use std::alloc::{AllocError, Global};
use subject_graph::Graph;

/// What it costs to show a node: a share of area, and how many gates stand behind one another.
#[derive(Clone, Copy)]
pub struct Cost {
    pub flow: u64,
    pub depth: u32,
}

fn is_less(a: Cost, b: Cost) -> bool {
    a.flow < b.flow || a.flow == b.flow && a.depth < b.depth
}

/// A node's cost is its cell's area with the costs of its leaves, each shared among all that read it.
fn cost_of(gate: &Gate, areas: &[u32], costs: &[Cost], counts: &[u32]) -> Cost {
    let area = match areas.get(gate.cell) {
        Some(area) => *area,
        None => 1,
    };
    let mut flow = (area as u64) * 1024;
    let mut depth: u32 = 0;
    for leaf in gate.leaves.as_slice() {
        if let Some(cost) = costs.get(*leaf as usize) {
            let readers = match counts.get(*leaf as usize) {
                Some(count) => (*count).max(1),
                None => 1,
            };
            flow = flow.saturating_add(cost.flow / readers as u64);
            depth = depth.max(cost.depth);
        }
    }
    Cost {
        flow,
        depth: depth.saturating_add(1),
    }
}

/// The best of the gates that compute one of the cuts behind the first; None where no cell computes any.
fn best<const K: usize>(
    cells: &[CellWord],
    table: &Table,
    cuts: &[Cut<K>],
    areas: &[u32],
    costs: &[Cost],
    counts: &[u32],
) -> Option<Gate>
    requires few { K ≤ 6 }
    requires table { IsTable cells.now table.now.maps.items }
    requires once { (i : ℕ) (c : Cut K) → IsNumber cuts.now i c → (x : ℕ) → times x c.leaves.items ≤ 1 }
    ensures some { IfSome result (λ g. IsOfCut cells.now cuts.now g) }
    ensures none { IfNone result (NoneOfCuts cells.now cuts.now) }
{
    let mut found = None;
    let mut least = Cost { flow: 0, depth: 0 };
    for i in 1..cuts.len() {
        if let Some(gate) = matched(cells, table, &cuts[i]) {
            let cost = cost_of(&gate, areas, costs, counts);
            if found.is_none() || is_less(cost, least) {
                found = Some(gate);
                least = cost;
            }
        }
    }
    found
}

/// For each number the best gate that stands for it, and none for inputs and registers. Takes memory for them.
pub fn choices<const K: usize>(
    alloc: Global,
    cells: &[CellWord],
    areas: &[u32],
    table: &Table,
    cuts: &CutTable<K>,
    held: u32,
    graph: &Graph,
    counts: &[u32],
) -> Result<Vec<Option<Gate>>, AllocError>
    requires few { K ≤ 6 }
    requires table { IsTable cells.now table.now.maps.items }
    requires cuts { IsCutTable held graph.now.nodes (map (λ v. v.items) cuts.now.cuts.items) }
    ensures { IfOk result (λ gates. AreChosen cells.now held graph.now.nodes (map (λ v. v.items) cuts.now.cuts.items) gates.items) }
{
    let lists = cuts.cuts.as_slice();
    let mut gates = Vec::new(alloc);
    let mut costs = Vec::new(alloc);
    for number in 0..lists.len() {
        let gate = if number < held as usize {
            None
        } else {
            best(
                cells,
                table,
                lists[number].as_slice(),
                areas,
                &costs,
                counts,
            )
        };
        let cost = match &gate {
            Some(gate) => cost_of(gate, areas, &costs, counts),
            None => Cost { flow: 0, depth: 0 },
        };
        costs.push(cost)?;
        gates.push(gate)?;
    }
    Ok(gates)
}
