// `rip` as a tool: what it reads, and what it answers.
ghost use Rattle.std.specs.Prelude.{◌≡◌, [], ℕ, List, get_or, false, IfOk, IfErr};
ghost use Rattle.cell_lib.specs.Library.{IsLibraryOf, IsRead};
ghost use Rattle.ocp_place.specs.Placed.{IsRowPlacementOf};
ghost use Rattle.ocp_grid.specs.Points.{HasFewNodes};
ghost use Rattle.tool_drive.specs.Table.{IsFair, IsJudged};
ghost use Rattle.nero_run.specs.Nero.{texts};
ghost use Rattle.rip_run.specs.Rip.{report as report_of, IsLaidOut, IsLeftStuck, Rips};

use crate::words::RipCommand;
use crate::written::ripped_text;
use cell_checks::Library;
use cell_lib::LibraryTool;
use nero_run::{read_given, refusal};
use net_core::Netlist;
use ocp_place::Placement;
use std::alloc::{AllocError, Global};
use tool_drive::{Answer, Product, Refusal, Wanted, count_line, file_name};
use vlsi_base::{FileBytes, FileName};

// How many nets there are, and how many rips were made.
fn report(alloc: Global, nets: u32, rips: usize) -> Result<FileBytes, AllocError>
    ensures { IfOk result (λ text. text ≡ report_of nets rips) }
{
    let mut text = FileBytes::new(Vec::new(alloc));
    count_line(alloc, &mut text, b"nets", u128::from(nets))?;
    count_line(alloc, &mut text, b"rips", rips as u128)?;
    Ok(text)
}

// The layout of a placement with routes in NAME.ap, how many nets there are, and how many rips were made; or what stands in NAME_part.ap.
fn product(
    alloc: Global,
    command: &RipCommand,
    netlist: &Netlist,
    library: &Library,
    placement: &Placement,
) -> Result<Product, Refusal>
    requires placed { IsRowPlacementOf library.now netlist.now placement.now }
    requires few { HasFewNodes library.now netlist.now placement.now command.now.routing.metals }
    ensures laid { IfOk result (λ p. IsLaidOut command.now library.now netlist.now placement.now p) }
    ensures stuck { IfErr result (λ r. IsFair r.status r.part (IsLeftStuck command.now library.now netlist.now placement.now r)) }
{
    let metals = command.routing.metals() as u8;
    let written = ripped_text(alloc, netlist, library, placement, metals, command.rips);
    let ripped = match written {
        Ok(ripped) => ripped,
        Err(none) => return Err(refusal(alloc, command.routing.out(), none)),
    };
    let nets = netlist.count().saturating_sub(2);
    let text = report(alloc, nets, ripped.rips)?;
    let name = file_name(alloc, command.routing.out(), b".ap")?;
    Ok(Product {
        name,
        file: Some(ripped.bytes),
        text,
    })
}

// What the netlist and its placement come to.
fn routed(
    alloc: Global,
    command: &RipCommand,
    library: &Library,
    first: &[FileBytes],
) -> Result<Product, Refusal>
    requires { IsRead library.now }
    ensures { (more : List (List ℕ)) → IsLibraryOf false (get_or first.now 2 []) more library.now
        → IsJudged (Rips command.now (texts first.now more)) result }
{
    let given = match read_given(alloc, &command.routing, library, first) {
        Ok(given) => given,
        Err(status) => return Err(Refusal::plain(status)),
    };
    product(alloc, command, &given.netlist, library, &given.placement)
}

/// `rip`, with what it is asked: it routes the nets of the netlist in SOURCE over the placement in PLACED, as `nero`; and where a net is
/// stuck, it tears out the paths of a net that blocks a least way, so many times at most. It writes the layout to NAME.ap, and prints
/// `nets` and how many they are, without those of the supplies, and `rips` and how many were made.
///
/// What it reads and what it refuses without a file is as of `nero`, in the same order. Then it is refused by `NoPath`, at a net that is
/// stuck when all rips have been made, or to which no way leads past other nets either, with what stood so far in NAME_part.ap. Memory
/// goes by the files, the netlist, the nodes of the grid over the rows, and the rips.
impl LibraryTool for RipCommand {
    ghost use Rattle.std.specs.Prelude.{refl, [], ◌∷◌};
    ghost use Rattle.tool_drive.specs.Plan.{large};
    ghost use Rattle.nero_run.specs.Nero.{no_library};
    ghost use Rattle.rip_run.specs.Rip.{rip_answers, plain};

    ghost files = { λ t. large t.routing.source ∷ large t.routing.placed ∷ [] };

    ghost folder = { λ t. t.routing.library };

    ghost answers = { rip_answers };

    fn own_files(&self, alloc: Global) -> Result<Vec<Wanted>, AllocError> {
        self.routing.own_files(alloc)
    }

    fn library_folder(&self) -> &FileName {
        self.routing.library_folder()
    }

    fn judge_with(&self, alloc: Global, library: &Library, first: &[FileBytes]) -> Answer {
        routed(alloc, self, library, first)
    }

    ghost refuses = { λ t first more e h. plain refl (no_library e h refl) };
}
