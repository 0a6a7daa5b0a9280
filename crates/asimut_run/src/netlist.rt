// `asimut` as a tool: patterns run on a netlist of library cells.
ghost use Rattle.std.specs.Prelude.{[], ℕ, List, get_or, false};
ghost use Rattle.cell_lib.specs.Library.{IsLibraryOf};
ghost use Rattle.tool_drive.specs.Table.{IsJudged};
ghost use Rattle.net_machine.specs.Signals.{MeetsConditionWith};
ghost use Rattle.asimut_run.specs.Netlist.{texts, ForTexts, IsToldOf, Simulates};

use crate::source::label;
use crate::words::AsimutNetlistCommand;
use cell_checks::Library;
use cell_lib::LibraryTool;
use cell_pins::pin_table;
use net_core::Netlist;
use net_machine::signal_ports;
use net_sim::{NetSimError, simulate_net};
use pat_io::{read_pat, write_pat};
use pat_meaning::Pattern;
use std::alloc::{AllocError, Global};
use tool_drive::{Answer, Product, Refusal, Status, Verdict, Wanted, bytes_at, refused};
use vlsi_base::{FileBytes, FileName, Limit, LimitKind};
use vst_io::read_vst;

fn refusal(alloc: Global, patterns: &[Pattern], error: NetSimError) -> Status
    ensures { IsToldOf patterns.now error result }
{
    match error {
        NetSimError::Memory => Status::Memory,
        NetSimError::NoBehaviour(cell) => Status::No(Verdict::NoBehaviour(cell)),
        NetSimError::TooManyBits(reached) => Status::Limit(Limit {
            which: LimitKind::Bits,
            reached,
        }),
        NetSimError::Differs { pattern, name } => match label(alloc, patterns, pattern) {
            Ok(label) => Status::No(Verdict::Differs { label, name }),
            Err(_) => Status::Memory,
        },
    }
}

// What the text of PATTERNS comes to on a netlist of these cells.
fn on_netlist(
    alloc: Global,
    command: &AsimutNetlistCommand,
    patterns: &[u8],
    library: &Library,
    netlist: &Netlist,
) -> Result<Product, Refusal>
    requires { MeetsConditionWith library.now netlist.now }
    ensures { ForTexts library.now netlist.now patterns.now (λ t. IsJudged (Simulates command.now t) result) }
{
    let ports = signal_ports(alloc, netlist.ports())?;
    let read = match read_pat(alloc, patterns, &ports) {
        Ok(read) => read,
        Err(error) => return Err(Refusal::plain(refused(alloc, &command.patterns, error))),
    };
    let filled = match simulate_net(alloc, netlist, library, &read) {
        Ok(filled) => filled,
        Err(error) => {
            let patterns = read.patterns.as_slice();
            return Err(Refusal::plain(refusal(alloc, patterns, error)));
        }
    };
    Ok(Product {
        name: command.source.copy(alloc)?,
        file: None,
        text: write_pat(alloc, &filled)?,
    })
}

// What the texts come to: of SOURCE and of PATTERNS.
fn simulated(
    alloc: Global,
    command: &AsimutNetlistCommand,
    library: &Library,
    first: &[FileBytes],
) -> Result<Product, Refusal>
    ensures { (more : List (List ℕ)) → IsLibraryOf false (get_or first.now 2 []) more library.now
        → IsJudged (Simulates command.now (texts first.now more)) result }
{
    let table = pin_table(alloc, library, true)?;
    let netlist = match read_vst(alloc, bytes_at(first, 0), &table) {
        Ok(netlist) => netlist,
        Err(error) => return Err(Refusal::plain(refused(alloc, &command.source, error))),
    };
    on_netlist(alloc, command, bytes_at(first, 1), library, &netlist)
}

/// `asimut` on a netlist, with what it is asked: it runs PATTERNS on the netlist in SOURCE and prints them with every output filled
/// in.
///
/// All files are read first: SOURCE, PATTERNS, CATAL, and the behaviour and the layout of each cell that this uses. Then it is
/// refused, in this order: by `Library`, or a limit of CATAL or of a cell; by `Source`, or a limit, of SOURCE, then of PATTERNS; by
/// `NoBehaviour`, at the first instance whose cell is opaque; by `Limit` of `Bits`, where the netlist's machine has 2^32 bits or
/// more; by `Differs`, at the first bit. Memory goes by the files, the netlist and its machine.
impl LibraryTool for AsimutNetlistCommand {
    ghost use Rattle.std.specs.Prelude.{refl, [], ◌∷◌};
    ghost use Rattle.tool_drive.specs.Plan.{limited, large};
    ghost use Rattle.asimut_run.specs.Netlist.{netlist_answers, no_library};

    ghost files = { λ t. large t.source ∷ limited t.patterns ∷ [] };

    ghost folder = { λ t. t.library };

    ghost answers = { netlist_answers };

    fn own_files(&self, alloc: Global) -> Result<Vec<Wanted>, AllocError> {
        let mut wanted = Vec::new(alloc);
        wanted.push(Wanted::large(self.source.copy(alloc)?))?;
        wanted.push(Wanted::limited(self.patterns.copy(alloc)?))?;
        Ok(wanted)
    }

    fn library_folder(&self) -> &FileName {
        &self.library
    }

    fn judge_with(&self, alloc: Global, library: &Library, first: &[FileBytes]) -> Answer {
        simulated(alloc, self, library, first)
    }

    ghost refuses = { λ t first more e h. (refl, no_library e h refl) };
}
