// `flatbeh` as a tool: what it reads, and what it answers.
ghost use Rattle.std.specs.Prelude.{◌≡◌, ◌∷◌, [], ℕ, List, MatchOption, false};
ghost use Rattle.cell_lib.specs.Library.{IsLibraryOf, IsRead};
ghost use Rattle.tool_drive.specs.Refusals.{MemoryOr, whole_fault};
ghost use Rattle.tool_drive.specs.Table.{IsJudged};
ghost use Rattle.net_flat.specs.Flat.{HasScalarClock};
ghost use Rattle.flatbeh_run.specs.Flatbeh.{HasVectorClock, Flattens, IsToldOf};

use crate::laws::{netlist_has_few_bits, netlist_has_words};
use crate::product::product;
use crate::words::FlatbehCommand;
use cell_checks::Library;
use cell_lib::LibraryTool;
use cell_pins::pin_table;
use machine_core::Machine;
use net_flat::{FlatError, flatbeh};
use std::alloc::{AllocError, Global};
use tool_drive::{
    Answer, Product, Refusal, Status, Verdict, Wanted, bytes_at, named_fault, refused,
};
use vlsi_base::{FaultKind, FileBytes, FileName, Name};
use vst_io::read_vst;

// How a refusal of the netlist is told.
fn flat_status(alloc: Global, command: &FlatbehCommand, error: FlatError) -> Status
    ensures { MemoryOr result (IsToldOf command.now error result) }
{
    match error {
        FlatError::Memory => Status::Memory,
        FlatError::NoBehaviour(model) => Status::No(Verdict::NoBehaviour(model)),
        FlatError::Twice(text) => {
            named_fault(alloc, &command.source, FaultKind::Twice, Name::scalar(text))
        }
    }
}

// The clock, where it is a bit of a vector.
fn vector_clock(machine: &Machine) -> Option<&Name>
    ensures { MatchOption result (HasScalarClock machine.now) (λ name. HasVectorClock machine.now name.now) }
{
    match machine.clock() {
        Some(name) if name.bit.is_some() => Some(name),
        _ => None,
    }
}

// The status of a clock that a text can't have.
fn clock_status(alloc: Global, command: &FlatbehCommand, name: &Name) -> Status
    ensures { MemoryOr result (result ≡ whole_fault command.now.source FaultKind.ClockUse (name.now ∷ [])) }
{
    match name.copy(alloc) {
        Ok(name) => named_fault(alloc, &command.source, FaultKind::ClockUse, name),
        Err(_) => Status::Memory,
    }
}

// What the netlist comes to.
fn flattened(
    alloc: Global,
    command: &FlatbehCommand,
    library: &Library,
    source: &[u8],
) -> Result<Product, Refusal>
    requires { IsRead library.now }
    ensures { (catal : List ℕ) (cells : List (List ℕ)) → IsLibraryOf false catal cells library.now
        → IsJudged (Flattens command.now source.now catal cells) result }
{
    // What is read has names that can be written, and few of them.
    netlist_has_words();
    netlist_has_few_bits();
    let table = pin_table(alloc, library, true)?;
    let netlist = match read_vst(alloc, source, &table) {
        Ok(netlist) => netlist,
        Err(error) => return Err(Refusal::plain(refused(alloc, &command.source, error))),
    };
    let machine = match flatbeh(alloc, &netlist, library) {
        Ok(machine) => machine,
        Err(error) => return Err(Refusal::plain(flat_status(alloc, command, error))),
    };
    if let Some(name) = vector_clock(&machine) {
        return Err(Refusal::plain(clock_status(alloc, command, name)));
    }
    let written = product(alloc, &command.out, &machine)?;
    Ok(written)
}

/// `flatbeh`, with what it is asked: it makes a machine of the netlist in SOURCE, whose registers have the names of its flip-flops,
/// writes it to NAME.vbe, and prints `size` and how large it is.
///
/// All files are read first: SOURCE, CATAL, and the behaviour and the layout of each cell that this uses. Then it is refused, in
/// this order: by `Library`, or a limit of CATAL or of a cell, at the first line or cell at fault; by `Source`, or a limit, of
/// SOURCE; by `NoBehaviour`, at the first instance whose cell is neither a gate nor a plain flip-flop; by `Source` of `Twice`, at the
/// first flip-flop with the text of a port; by `Source` of `ClockUse`, where the clock is a bit of a vector, which a data-flow text
/// can't have. Such a netlist has few enough bits for its machine, since it was read. Memory goes by the files, the netlist and its machine.
impl LibraryTool for FlatbehCommand {
    ghost use Rattle.std.specs.Prelude.{refl, [], ◌∷◌};
    ghost use Rattle.tool_drive.specs.Plan.{large};
    ghost use Rattle.flatbeh_run.specs.Flatbeh.{flatbeh_answers, no_library};

    ghost files = { λ t. large t.source ∷ [] };

    ghost folder = { λ t. t.library };

    ghost answers = { flatbeh_answers };

    fn own_files(&self, alloc: Global) -> Result<Vec<Wanted>, AllocError> {
        let mut wanted = Vec::new(alloc);
        wanted.push(Wanted::large(self.source.copy(alloc)?))?;
        Ok(wanted)
    }

    fn library_folder(&self) -> &FileName {
        &self.library
    }

    fn judge_with(&self, alloc: Global, library: &Library, first: &[FileBytes]) -> Answer {
        flattened(alloc, self, library, bytes_at(first, 0))
    }

    ghost refuses = { λ t first more e h. (refl, no_library e h refl) };
}
