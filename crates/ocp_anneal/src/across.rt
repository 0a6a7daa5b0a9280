// Placements whose cells may have gone to other rows.
ghost use Rattle.std.specs.Prelude.{◌≡◌, ◌≤◌, ◌/◌, ◌^◌, ◌⊎◌, false, map, length, sum, IfOk, IfSome};
ghost use Rattle.cell_checks.specs.Checked.{IsChecked as HasPassed};
ghost use Rattle.net_core.specs.Netlist.{Netlist as InMemory};
ghost use Rattle.net_meaning.specs.Netlist.{AbstractNetlist as Seen};
ghost use Rattle.net_right.specs.View.{IsSeenAs};
ghost use Rattle.ocp_rows.specs.Length.{half_perimeter};
ghost use Rattle.ocp_place.specs.Drawable.{IsDrawableIn};
ghost use Rattle.ocp_place.specs.Stood.{instance_columns};
ghost use Rattle.ocp_place.specs.Placed.{rows_of, IsRowPlacementOf, IsEvenPlacement};
ghost use Rattle.row_bridge.specs.Improved.{IsStablePlacement};

use crate::cells::{instances_of, numbered};
use crate::shorter::{Moves, improve};
use cell_checks::Library;
use net_core::Netlist;
use ocp_place::{Placement, half_perimeter, place_in_rows};
use row_anneal::{anneal, are_fair};
use std::alloc::{AllocError, Global};
use sym_geom::PITCH;

/// How many columns wide cells with these widths are.
fn in_columns(alloc: Global, widths: &[u64]) -> Result<Vec<u64>, AllocError>
    ensures { IfOk result (λ columns. columns.items ≡ map (λ w. w / 500) widths.now) }
{
    let mut columns = Vec::new(alloc);
    for width in widths {
        columns.push(*width / u64::from(PITCH))?;
    }
    Ok(columns)
}

/// How many columns wide the instances of a netlist are.
fn columns_of(alloc: Global, netlist: &Netlist, library: &Library) -> Result<Vec<u64>, AllocError>
    requires library { HasPassed false library.now }
    requires netlist { IsDrawableIn library.now netlist.now }
    ensures columns { IfOk result (λ columns. (k : Seen) → IsSeenAs netlist.now k → columns.items ≡ instance_columns library.now k.instances) }
    ensures narrow { IfOk result (λ columns. sum columns.items ≤ 2 ^ 60) }
{
    let parts = instances_of(alloc, netlist, library)?;
    let columns = in_columns(alloc, &parts.widths)?;
    Ok(columns)
}

/// Another placement of the cells in as many rows, made by annealing across rows with this seed; none where a cell is missing or a row
/// is too wide.
fn candidate(
    alloc: Global,
    placement: &Placement,
    netlist: &Netlist,
    library: &Library,
    seed: u32,
) -> Result<Option<Placement>, AllocError>
    requires { IsRowPlacementOf library.now netlist.now placement.now }
    ensures placed { IfOk result (λ made. IfSome made (λ p. IsRowPlacementOf library.now netlist.now p)) }
    ensures even { IfOk result (λ made. IfSome made (λ p. IsEvenPlacement library.now netlist.now p)) }
    ensures many { IfOk result (λ made. IfSome made (λ p. length p.rows ≡ length placement.now.rows)) }
{
    let cells = numbered(alloc, placement, netlist, library)?;
    let columns = columns_of(alloc, netlist, library)?;
    let rows = anneal(alloc, placement.rows(), &cells, seed)?;
    let fair = are_fair(alloc, &rows, &columns, placement.rows().len())?;
    if !fair {
        return Ok(None);
    }
    let made = place_in_rows(alloc, netlist, library, rows)?;
    Ok(Some(made))
}

/// The second of two placements where its nets are shorter, and else the first.
fn shorter_of(first: Placement, second: Placement, library: &Library) -> Placement
    ensures { (result ≡ first) ⊎ ((result ≡ second) × ((n : InMemory) (k : Seen) → IsRowPlacementOf library.now n first
        → IsRowPlacementOf library.now n second → IsSeenAs n k
        → half_perimeter k library.now (rows_of k second) ≤ half_perimeter k library.now (rows_of k first))) }
{
    let long = half_perimeter(&first, library);
    let other = half_perimeter(&second, library);
    if other < long { second } else { first }
}

/// A placement, or another of the same cells in as many rows, in which they may stand in other rows: where there are moves, it is made by
/// annealing and then by exchanges of neighbours, and taken where its nets are shorter. What is stable stays so. Takes memory for each
/// instance and each terminal.
pub(crate) fn refined(
    alloc: Global,
    placement: Placement,
    netlist: &Netlist,
    library: &Library,
    moves: Moves,
) -> Result<Placement, AllocError>
    requires placed { IsRowPlacementOf library.now netlist.now placement }
    ensures placed { IfOk result (λ p. IsRowPlacementOf library.now netlist.now p) }
    ensures even { IfOk result (λ p. IsEvenPlacement library.now netlist.now placement → IsEvenPlacement library.now netlist.now p) }
    ensures many { IfOk result (λ p. length p.rows ≡ length placement.rows) }
    ensures stable { IfOk result (λ p. (k : Seen) → IsSeenAs netlist.now k → IsStablePlacement k library.now (rows_of k placement)
        → IsStablePlacement k library.now (rows_of k p)) }
    ensures lower { IfOk result (λ p. (k : Seen) → IsSeenAs netlist.now k
        → half_perimeter k library.now (rows_of k p) ≤ half_perimeter k library.now (rows_of k placement)) }
{
    if moves.many == 0 {
        return Ok(placement);
    }
    let made = candidate(alloc, &placement, netlist, library, moves.seed)?;
    let Some(begun) = made else {
        return Ok(placement);
    };
    let exchanges = Moves {
        many: 0,
        seed: moves.seed,
    };
    let other = improve(alloc, &begun, netlist, library, exchanges)?;
    Ok(shorter_of(placement, other, library))
}
