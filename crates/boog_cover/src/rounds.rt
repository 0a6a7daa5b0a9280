// Rounds of choices.
ghost use Rattle.std.specs.Prelude.{◌≤◌, map, IfOk};
ghost use Rattle.cell_match.specs.Matches.{IsTable};
ghost use Rattle.boog_cuts.specs.Cuts.{IsCutTable};
ghost use Rattle.boog_cover.specs.Choices.{AreChosen};

use crate::choice::choices;
use boog_cuts::{CutTable, readers};
use cell_match::{CellWord, Gate, Table};
use std::alloc::{AllocError, Global};
use subject_graph::Graph;

/// How often the cells are chosen, and how often before the readers of each node are forgotten once.
const ROUNDS: usize = 4;

const SHARED: usize = 2;

fn add_reader(readers: &mut [u32], number: u32) {
    if let Some(count) = readers.get_mut(number as usize) {
        *count = count.saturating_add(1);
    }
}

fn add_gate(readers: &mut [u32], gate: &Option<Gate>) {
    if let Some(gate) = gate {
        for leaf in gate.leaves.as_slice() {
            add_reader(readers, *leaf);
        }
    }
}

fn is_read(readers: &[u32], number: usize) -> bool {
    match readers.get(number) {
        Some(count) => *count > 0,
        None => false,
    }
}

/// How many roots and gates that are needed read each number. Takes memory for them.
fn cover_readers(
    alloc: Global,
    gates: &[Option<Gate>],
    roots: &[u32],
) -> Result<Vec<u32>, AllocError> {
    let mut readers = vec![in alloc; 0u32; gates.len()]?;
    for root in roots {
        add_reader(&mut readers, *root);
    }
    for behind in 0..gates.len() {
        let number = gates.len() - 1 - behind;
        if is_read(&readers, number) {
            add_gate(&mut readers, &gates[number]);
        }
    }
    Ok(readers)
}

/// The area of the gates that are read.
fn area_of(gates: &[Option<Gate>], areas: &[u32], readers: &[u32]) -> u64 {
    let mut area: u64 = 0;
    for number in 0..gates.len() {
        if !is_read(readers, number) {
            continue;
        }
        if let Some(gate) = &gates[number] {
            if let Some(own) = areas.get(gate.cell) {
                area = area.saturating_add(*own as u64);
            }
        }
    }
    area
}

/// The area of the gates that roots need.
pub(crate) fn columns_of(
    alloc: Global,
    gates: &[Option<Gate>],
    areas: &[u32],
    roots: &[u32],
) -> Result<u64, AllocError> {
    let readers = cover_readers(alloc, gates, roots)?;
    Ok(area_of(gates, areas, &readers))
}

/// The gates of some rounds, of which the first shares a node's cost among those that read it in the graph, and each further one among
/// those that read it in the cover before; one in between shares none. Of all these covers the one of least area. Takes memory for them.
pub(crate) fn chosen<const K: usize>(
    alloc: Global,
    cells: &[CellWord],
    areas: &[u32],
    table: &Table,
    cuts: &CutTable<K>,
    held: u32,
    graph: &Graph,
    roots: &[u32],
) -> Result<Vec<Option<Gate>>, AllocError>
    requires few { K ≤ 6 }
    requires table { IsTable cells.now table.now.maps.items }
    requires cuts { IsCutTable held graph.now.nodes (map (λ v. v.items) cuts.now.cuts.items) }
    ensures { IfOk result (λ gates. AreChosen cells.now held graph.now.nodes (map (λ v. v.items) cuts.now.cuts.items) gates.items) }
{
    let in_graph = readers(alloc, held, graph)?;
    let mut gates = choices(alloc, cells, areas, table, cuts, held, graph, &in_graph)?;
    let mut counts = cover_readers(alloc, &gates, roots)?;
    let mut least = area_of(&gates, areas, &counts);
    for round in 1..ROUNDS {
        if round == SHARED {
            counts.clear();
        }
        let next = choices(alloc, cells, areas, table, cuts, held, graph, &counts)?;
        counts = cover_readers(alloc, &next, roots)?;
        let area = area_of(&next, areas, &counts);
        if area < least {
            gates = next;
            least = area;
        }
    }
    Ok(gates)
}
