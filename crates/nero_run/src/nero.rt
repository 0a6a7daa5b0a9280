// `nero` as a tool: what it reads, and what it answers.
ghost use Rattle.std.specs.Prelude.{[], ℕ, List, get_or, false, IfOk, IfErr};
ghost use Rattle.cell_lib.specs.Library.{IsLibraryOf, IsRead};
ghost use Rattle.ocp_place.specs.Placed.{IsRowPlacementOf};
ghost use Rattle.ocp_grid.specs.Points.{HasFewNodes};
ghost use Rattle.tool_drive.specs.Table.{IsFair, IsJudged};
ghost use Rattle.nero_run.specs.Nero.{texts, IsLaidOut, IsLeftStuck, Routes};

use crate::given::read_given;
use crate::words::NeroCommand;
use crate::written::{refusal, row_text};
use cell_checks::Library;
use cell_lib::LibraryTool;
use net_core::Netlist;
use ocp_place::Placement;
use std::alloc::{AllocError, Global};
use tool_drive::{Answer, Product, Refusal, Wanted, count_text, file_name};
use vlsi_base::{FileBytes, FileName};

// The layout of a placement with routes in NAME.ap, and how many nets there are; or what stands in NAME_part.ap.
fn product(
    alloc: Global,
    command: &NeroCommand,
    netlist: &Netlist,
    library: &Library,
    placement: &Placement,
) -> Result<Product, Refusal>
    requires placed { IsRowPlacementOf library.now netlist.now placement.now }
    requires few { HasFewNodes library.now netlist.now placement.now command.now.metals }
    ensures laid { IfOk result (λ p. IsLaidOut command.now library.now netlist.now placement.now p) }
    ensures stuck { IfErr result (λ r. IsFair r.status r.part (IsLeftStuck command.now library.now netlist.now placement.now r)) }
{
    let written = row_text(alloc, netlist, library, placement, command.metals as u8);
    let file = match written {
        Ok(file) => file,
        Err(none) => return Err(refusal(alloc, &command.out, none)),
    };
    let nets = netlist.count().saturating_sub(2);
    let text = count_text(alloc, b"nets", u128::from(nets))?;
    let name = file_name(alloc, &command.out, b".ap")?;
    Ok(Product {
        name,
        file: Some(file),
        text,
    })
}

// What the netlist and its placement come to.
fn routed(
    alloc: Global,
    command: &NeroCommand,
    library: &Library,
    first: &[FileBytes],
) -> Result<Product, Refusal>
    requires { IsRead library.now }
    ensures { (more : List (List ℕ)) → IsLibraryOf false (get_or first.now 2 []) more library.now
        → IsJudged (Routes command.now (texts first.now more)) result }
{
    let given = match read_given(alloc, command, library, first) {
        Ok(given) => given,
        Err(status) => return Err(Refusal::plain(status)),
    };
    product(alloc, command, &given.netlist, library, &given.placement)
}

/// `nero`, with what it is asked: it routes the nets of the netlist in SOURCE over the placement in PLACED, writes the layout to NAME.ap,
/// and prints `nets` and how many they are, without those of the supplies. A signal pin that SOURCE ties to vdd or vss is left open.
///
/// All files are read first: SOURCE, PLACED, CATAL, and the behaviour and the layout of each cell that this uses. Then it is refused, in
/// this order: by `Library`, or a limit of CATAL or of a cell, at the first line or cell at fault; by `Source`, or a limit, of SOURCE, in
/// which cells that aren't usable are unknown; by `Source` of `Unknown`, where the netlist has no port vdd, or none vss, which it lacks
/// only without instances; by `Source`, or a limit, of PLACED; by `Source` of `NotPlaced`, where its figure isn't the drawing, without
/// routes, of a placement of the netlist in rows; by `Limit` of `Size`, where the grid over the rows has 2^32 - 1 nodes or more, with their
/// number; and by `NoPath`, at the first net that gets stuck, with what stood so far in NAME_part.ap. Memory goes by the files, the
/// netlist, and the nodes of the grid over the rows.
impl LibraryTool for NeroCommand {
    ghost use Rattle.std.specs.Prelude.{refl, [], ◌∷◌};
    ghost use Rattle.tool_drive.specs.Plan.{large};
    ghost use Rattle.nero_run.specs.Nero.{nero_answers, no_library, plain};

    ghost files = { λ t. large t.source ∷ large t.placed ∷ [] };

    ghost folder = { λ t. t.library };

    ghost answers = { nero_answers };

    fn own_files(&self, alloc: Global) -> Result<Vec<Wanted>, AllocError> {
        let mut wanted = Vec::new(alloc);
        wanted.push(Wanted::large(self.source.copy(alloc)?))?;
        wanted.push(Wanted::large(self.placed.copy(alloc)?))?;
        Ok(wanted)
    }

    fn library_folder(&self) -> &FileName {
        &self.library
    }

    fn judge_with(&self, alloc: Global, library: &Library, first: &[FileBytes]) -> Answer {
        routed(alloc, self, library, first)
    }

    ghost refuses = { λ t first more e h. plain refl (no_library e h refl) };
}
