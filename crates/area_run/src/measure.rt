// The trees of a machine's graph, and their least area.
ghost use Rattle.std.specs.Prelude.{◌≡◌, ◌≤◌, ◌<◌, ◌+◌, ◌^◌, ℕ, IfOk, OnOk, IfErr, length, slice_index};
ghost use Rattle.machine_core.specs.Size.{machine_size as size_of};
ghost use Rattle.source_checks.specs.Checks.{most_ports};
ghost use Rattle.graph_theory.specs.Graph.{EachReadsEarlier, held_count as held_of};
ghost use Rattle.subject_graph.specs.Subject.{IsNumberable};
ghost use Rattle.boog_tree.specs.Sums.{total};
ghost use Rattle.boog_tree.specs.Trees.{root_uses};
ghost use Rattle.boog_area.specs.Covers.{IsTreeCover, AreCellBounds};
ghost use Rattle.boog_area.specs.Refused.{CoversTrees};
ghost use Rattle.tool_drive.specs.Refusals.{MemoryOr};
ghost use Rattle.tool_drive.specs.declared.size.TheConstants.{MOST_SIZE};
ghost use Rattle.area_run.specs.Area.{HasTrees, IsPartOf, IsNoCover, report as report_of};

use boog_area::{TreeCover, TreeError, check_bounds, least_area, whole_area};
use boog_part::NeededPart;
use cell_checks::Library;
use machine_core::Machine;
use std::alloc::{AllocError, Global};
use subject_graph::Graph;
use tool_drive::{Status, check_size, count_line};
use vlsi_base::FileBytes;

/// How many trees a graph has, and the least area of covers of them all, in columns.
#[derive(Clone, Copy)]
pub(crate) struct Measure {
    pub(crate) trees: usize,
    pub(crate) area: u128,
}

/// How many inputs and registers there are: the number of the first node of the machine's graph.
fn held_count(machine: &Machine) -> u32
    requires { IsNumberable machine.now }
    ensures { result ≡ held_of machine.now }
{
    (machine.vars().as_slice().len() - machine.equations().as_slice().len()) as u32
}

/// How many trees a cover has, and its area, once its bounds are checked by themselves. Takes memory for enough cuts within trees.
fn measure_of(
    alloc: Global,
    held: u32,
    part: &NeededPart,
    library: &Library,
    cover: &TreeCover,
) -> Result<Measure, AllocError>
    requires numbers { held + length part.now.nodes < 2 ^ 32 }
    requires earlier { EachReadsEarlier held part.now.nodes }
    requires roots { (x : ℕ) → 0 < root_uses x part.now → x < held + length part.now.nodes }
    requires cover { IsTreeCover library.now held part.now cover.now }
    ensures bounds { OnOk result (AreCellBounds library.now held part.now cover.now.cover.bounds.items) }
    ensures trees { IfOk result (λ m. m.trees ≡ length cover.now.cover.trees.items) }
    ensures area { IfOk result (λ m. m.area ≡ total (slice_index cover.now.cover.bounds.items) cover.now.cover.trees.items) }
{
    if !check_bounds(alloc, held, part, library, &cover.cover.bounds)? {
        unreachable!()
    }
    Ok(Measure {
        trees: cover.cover.trees.len(),
        area: whole_area(&cover.cover),
    })
}

/// The part of a machine's graph that its outputs and registers need. Takes memory for the graph and the part.
fn needed_part(alloc: Global, machine: &Machine) -> Result<NeededPart, AllocError>
    requires { IsNumberable machine.now }
    ensures part { IfOk result (λ p. IsPartOf machine.now p) }
    ensures earlier { IfOk result (λ p. EachReadsEarlier (held_of machine.now) p.nodes) }
{
    let graph = Graph::of_machine(alloc, machine)?;
    let part = NeededPart::of_graph(alloc, held_count(machine), &graph)?;
    Ok(part)
}

/// The trees of a machine's graph, with an area whose bounds are checked by themselves, or the status that tells why they have no
/// cover: `Limit` of `Size`, `NoCover`, or out of memory.
pub(crate) fn measured(
    alloc: Global,
    machine: &Machine,
    library: &Library,
) -> Result<Measure, Status>
    requires { length machine.now.ports ≤ most_ports }
    ensures has { IfOk result (λ x. HasTrees library.now machine.now x.trees x.area) }
    ensures small { OnOk result (size_of machine.now ≤ MOST_SIZE) }
    ensures covered { OnOk result (CoversTrees library.now) }
    ensures refused { IfErr result (λ s. MemoryOr s (IsNoCover library.now machine.now s)) }
{
    check_size(machine)?;
    let Ok(part) = needed_part(alloc, machine) else {
        return Err(Status::Memory);
    };
    let held = held_count(machine);
    match least_area(alloc, held, &part, library) {
        Ok(cover) => match measure_of(alloc, held, &part, library, &cover) {
            Ok(measure) => Ok(measure),
            Err(_) => Err(Status::Memory),
        },
        Err(TreeError::Memory) => Err(Status::Memory),
        Err(TreeError::NoCover(kind)) => Err(Status::NoCover(kind)),
    }
}

/// What is printed. Takes memory for it.
pub(crate) fn report(alloc: Global, measure: &Measure) -> Result<FileBytes, AllocError>
    ensures { IfOk result (λ text. text ≡ report_of measure.now.trees measure.now.area) }
{
    let mut text = FileBytes::new(Vec::new(alloc));
    count_line(alloc, &mut text, b"trees", measure.trees as u128)?;
    count_line(alloc, &mut text, b"area", measure.area)?;
    Ok(text)
}
