// `flow` as a tool: what it reads, and what it answers.
ghost use Rattle.std.specs.Prelude.{◌≡◌, ◌≤◌, ◌<◌, ◌+◌, ◌-◌, ◌^◌, true, IfOk, IfErr, OnOk, length};
ghost use Rattle.machine_core.specs.Size.{machine_size};
ghost use Rattle.source_checks.specs.Checks.{most_ports};
ghost use Rattle.boog_map.specs.Netlist.{Covers};
ghost use Rattle.boom_run.specs.Boom.{IsBudgetStatus};
ghost use Rattle.tool_drive.specs.Outside.{outside, IsLine};
ghost use Rattle.tool_drive.specs.Status.{has_line};
ghost use Rattle.tool_drive.specs.Lines.{line_of};
ghost use Rattle.tool_drive.specs.Refusals.{MemoryOr};
ghost use Rattle.tool_drive.specs.Table.{IsJudged, Caused, IsComplete};
ghost use Rattle.flow_run.specs.Origin.{is_fsm as is_state_machine, IsSourceFor, IsSourceRefusal};
ghost use Rattle.flow_run.specs.View.{origin_view};
ghost use Rattle.tool_drive.specs.declared.size.TheConstants.{MOST_SIZE};
ghost use Rattle.flow_run.specs.Flow.{flow_plan, flow_answers, IsSourceOf, AreRead, IsNoSource, IsUnread, LaysOut};
ghost use Rattle.flow_words.specs.Words.{IsWithinBounds};
ghost use Rattle.flow_run.specs.Mapped.{IsMissingIn, IsMappedFor};

use crate::layout::product;
use crate::source::{Counted, Origin, Source};
use boog_run::netlist_law;
use boom_run::optimise_within;
use cell_checks::Library;
use cell_lib::{catal_file, library_law, library_status, listed_library, named_files, read_list};
use cell_model::first_missing;
use flow_netlist::{driven_netlist_law, driven_netlist_of};
use flow_words::FlowCommand;
use fsm_io::read_fsm;
use fsm_laws::machine_has_few_signals;
use loon_drive::Driven;
use machine_core::Machine;
use std::alloc::{AllocError, Global};
use std::marker::Model;
use syf_run::{Encoded, encoded_law, encoded_machine, style_of};
use tool_drive::{
    Answer, Product, Refusal, Status, Tool, Wanted, bytes_at, check_size, drive, refused,
};
use vbe_io::read_vbe;
use vbe_laws::source_has_few_names;
use vlsi_base::{FileBytes, ReadError};
use vlsi_shelf::{Shelf, Sink};

/// `flow`, with what it is asked: it lays the source out with usable cells of the library, writes the layout to NAME.ap, and prints
/// the report on it.
///
/// All files are read first: SOURCE, CATAL, and the behaviour and the layout of each cell that this uses. Then it is refused, in this
/// order: by `Library`, or a limit of CATAL, at the first line at fault; by `Source`, or a limit of the text, as a state machine where
/// its name ends in `.fsm`, and else as a data-flow text; by `Limit` of `Size`, where the machine weighs more than `MOST_SIZE`; by
/// `Library`, or a limit of a cell, at the first cell that fails a check, that for tracks among them where they are asked for; by
/// `NoCover`, where the library has no usable cell of a kind; by `Budget`, at the first root whose diagram has more nodes than asked for;
/// and, over rows, by `NoPath`, at the first net that gets stuck, with what stood so far in NAME_part.ap. Memory goes by the files, the
/// machine, one diagram, the netlist, the lines of the layout, and over rows the nodes of the grid.
#[derive(Drop)]
struct Flow<'a> {
    command: &'a FlowCommand,
}

impl<'a> Model for Flow<'a> {
    ghost use Rattle.flow_words.specs.declared.words.FlowCommand.{FlowCommand as Asked};
    ghost use Rattle.flow_words.specs.Words.{IsWithinBounds};

    ghost Value = { Asked };

    ghost view = { λ a. a.command.now };

    ghost invariant = { λ a. IsWithinBounds a.command.now };
}

/// What was read: the source, and the library.
#[derive(Drop)]
struct Read {
    source: Source,
    library: Library,
}

fn is_fsm(command: &FlowCommand) -> bool
    ensures { result ≡ is_state_machine command.now }
{
    command.source.as_bytes().ends_with(b".fsm")
}

// The machine of a data-flow text, or of a state machine by codes of its states.
fn source_of(alloc: Global, command: &FlowCommand, source: &[u8]) -> Result<Source, ReadError>
    ensures accepted { IfOk result (λ r. IsSourceFor command.now source.now (origin_view r.origin) r.machine) }
    ensures refused { IfErr result (λ e. IsSourceRefusal command.now source.now e) }
{
    if !is_fsm(command) {
        let machine = read_vbe(alloc, source)?;
        return Ok(Source {
            origin: Origin::Equations,
            machine,
        });
    }
    // What is read has few signals.
    machine_has_few_signals();
    let states = read_fsm(alloc, source)?;
    let style = style_of(command.encoding, command.seed);
    let Encoded { codes, machine } = encoded_machine(alloc, &states, style)?;
    Ok(Source {
        origin: Origin::States(states, codes),
        machine,
    })
}

// What SOURCE is.
fn read_source(alloc: Global, command: &FlowCommand, source: &[u8]) -> Result<Source, Status>
    ensures accepted { IfOk result (λ r. IsSourceOf command.now source.now (origin_view r.origin) r.machine) }
    ensures refused { IfErr result (λ s. MemoryOr s (IsNoSource command.now source.now s)) }
{
    let read = match source_of(alloc, command, source) {
        Ok(read) => read,
        Err(error) => return Err(refused(alloc, &command.source, error)),
    };
    match check_size(&read.machine) {
        Ok(()) => Ok(read),
        Err(status) => Err(status),
    }
}

// The machine and the library of the texts, or the status that tells what isn't read: the list of the library's cells before the
// source, and this before the cells.
fn read_all(
    alloc: Global,
    command: &FlowCommand,
    source: &[u8],
    catal: &[u8],
    cells: &[FileBytes],
) -> Result<Read, Status>
    ensures read { IfOk result (λ r. AreRead command.now source.now catal.now cells.now (origin_view r.source.origin) r.source.machine
        r.library) }
    ensures refused { IfErr result (λ s. MemoryOr s (IsUnread command.now source.now catal.now cells.now s)) }
{
    let names = match read_list(alloc, catal) {
        Ok(names) => names,
        Err(error) => return Err(library_status(error)),
    };
    let source = match read_source(alloc, command, source) {
        Ok(source) => source,
        Err(status) => return Err(status),
    };
    match listed_library(alloc, &names, cells, command.tracks) {
        Ok(library) => Ok(Read { source, library }),
        Err(error) => Err(library_status(error)),
    }
}

// Whether the library has a usable cell of each kind that mapping needs, or the status that names the first that it hasn't.
fn check_kinds(machine: &Machine, library: &Library) -> Result<(), Status>
    ensures covered { OnOk result (Covers library.now machine.now) }
    ensures missing { IfErr result (λ s. IsMissingIn library.now machine.now s) }
{
    let has_registers = !machine.registers().as_slice().is_empty();
    match first_missing(library.cells(), has_registers) {
        None => Ok(()),
        Some(kind) => Err(Status::NoCover(kind)),
    }
}

/// A netlist of the library's cells, with buffers and drives, for a machine that was made smaller before, and the most nodes that a
/// diagram of its roots has.
#[derive(Drop)]
struct Mapped {
    nodes: u32,
    driven: Driven,
}

// The netlist of the machine made smaller, or the status of the first root over the budget. The smaller machine is small enough and
// covered as the given one is.
fn netlist_within(
    alloc: Global,
    machine: &Machine,
    library: &Library,
    command: &FlowCommand,
) -> Result<Mapped, Status>
    requires ports { length machine.now.ports ≤ most_ports }
    requires small { machine_size machine.now ≤ MOST_SIZE }
    requires covered { Covers library.now machine.now }
    requires few { length machine.now.vars + length machine.now.ports + machine_size machine.now < 2 ^ 32 - 1 }
    ensures mapped { IfOk result (λ p. IsMappedFor library.now machine.now command.now.nodes command.now.fanout
        p.driven.netlist p.driven.delay p.nodes) }
    ensures refused { IfErr result (λ s. MemoryOr s (IsBudgetStatus machine.now command.now.nodes s)) }
{
    let made = match optimise_within(alloc, machine, command.nodes) {
        Ok(made) => made,
        Err(status) => return Err(status),
    };
    // A machine is checked.
    let _ = made.machine.name();
    let driven = match driven_netlist_of(alloc, &made.machine, library, command.fanout) {
        Ok(driven) => driven,
        Err(_) => return Err(Status::Memory),
    };
    Ok(Mapped {
        nodes: made.nodes,
        driven,
    })
}

// What the texts come to.
fn laid_out(
    alloc: Global,
    command: &FlowCommand,
    source: &[u8],
    catal: &[u8],
    cells: &[FileBytes],
) -> Result<Product, Refusal>
    requires { IsWithinBounds command.now }
    ensures { IsJudged (LaysOut command.now source.now catal.now cells.now) result }
{
    // What is read has names that can be written, few of them, and is small enough.
    library_law();
    netlist_law();
    driven_netlist_law();
    source_has_few_names();
    encoded_law();
    let read = match read_all(alloc, command, source, catal, cells) {
        Ok(read) => read,
        Err(status) => return Err(Refusal::plain(status)),
    };
    let Read { source, library } = read;
    match check_kinds(&source.machine, &library) {
        Ok(()) => {}
        Err(status) => return Err(Refusal::plain(status)),
    }
    let mapped = netlist_within(alloc, &source.machine, &library, command);
    let Mapped { nodes, driven } = match mapped {
        Ok(mapped) => mapped,
        Err(status) => return Err(Refusal::plain(status)),
    };
    let counted = Counted {
        source,
        nodes,
        fanout: command.fanout,
    };
    product(alloc, command, &counted, &driven, &library)
}

impl Tool for Flow<'_> {
    ghost use Rattle.flow_run.specs.Flow.{flow_plan, flow_answers};

    ghost plan = { flow_plan };

    ghost answers = { flow_answers };

    fn first(&self, alloc: Global) -> Result<Vec<Wanted>, AllocError> {
        let mut wanted = Vec::new(alloc);
        wanted.push(Wanted::limited(self.command.source.copy(alloc)?))?;
        wanted.push(catal_file(alloc, &self.command.library)?)?;
        Ok(wanted)
    }

    fn more(&self, alloc: Global, first: &[FileBytes]) -> Result<Vec<Wanted>, AllocError> {
        named_files(alloc, &self.command.library, bytes_at(first, 1))
    }

    fn judge(&self, alloc: Global, first: &[FileBytes], more: &[FileBytes]) -> Answer {
        laid_out(
            alloc,
            self.command,
            bytes_at(first, 0),
            bytes_at(first, 1),
            more,
        )
    }
}

/// Runs `flow` by the driver; the lines of refusals have this word in front.
pub fn run_flow<S: Shelf, T: Sink>(
    alloc: Global,
    word: &[u8],
    command: &FlowCommand,
    shelf: &mut S,
    out: &mut T,
) -> Status
    requires { IsWithinBounds command.now }
    ensures cause { Caused (flow_plan command.now) (flow_answers command.now)
        (outside (S.seen shelf.old) (T.seen out.old)) (outside (S.seen shelf.new) (T.seen out.new)) result }
    ensures complete { IsComplete (flow_plan command.now) (flow_answers command.now)
        (outside (S.seen shelf.old) (T.seen out.old)) (outside (S.seen shelf.new) (T.seen out.new)) result }
    ensures line { has_line result ≡ true → IsLine (T.seen out.old) (T.seen out.new) (line_of word.now result) }
    ensures never_usage { result ≡ Status.Usage → ⊥ }
{
    let tool = Flow { command };
    drive(alloc, word, &tool, shelf, out)
}
