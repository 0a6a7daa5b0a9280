// `gen`: a source from a number, and its layout.
ghost use Rattle.std.specs.Prelude.{◌≡◌, true, codes, IfOk, IfErr, OnOk};
ghost use Rattle.vlsi_shelf.specs.Counts.{NoneFalls};
ghost use Rattle.vlsi_shelf.specs.Seen.{SinkSeen};
ghost use Rattle.vlsi_shelf.specs.Shelf.{Writes};
ghost use Rattle.tool_drive.specs.Outside.{outside, IsLine};
ghost use Rattle.tool_drive.specs.Status.{has_line};
ghost use Rattle.tool_drive.specs.Lines.{line_of};
ghost use Rattle.flow_run.specs.Generated.{IsFitting, IsRun, IsUnwritten, circuit_text};
ghost use Rattle.flow_run.specs.Generated.{RunsHaveHeadlines, SourcesAreSpared, FreeRunsEnd, CircuitsAreNeverRefused};

use crate::flow::run_flow;
use crate::reading::reading_law;
use crate::{libraries_are_same, library_is_never_refused};
use flow_words::GenCommand;
use gen_circuit::{
    circuit, circuits_are_checked, circuits_are_read_again, circuits_are_small,
    circuits_can_be_written,
};
use machine_core::alike_law;
use std::alloc::{AllocError, Global};
use tool_drive::{FileCause, Status, tell};
use vbe_laws::machines_are_the_same;
use vbe_print::write_vbe_by;
use vbe_roots::roots_are_the_same;
use vlsi_base::FileBytes;
use vlsi_shelf::{Shelf, ShelfError, Sink};

/// The text of a circuit is read, and is small enough; so where a library covers the circuit, and no diagram is over the budget,
/// nothing refuses it. It costs nothing when it is called.
pub fn circuit_law()
    ensures { CircuitsAreNeverRefused }
{
    catal::never_both();
    reading_law();
    circuits_are_read_again();
    library_is_never_refused();
    libraries_are_same();
    roots_are_the_same();
}

/// Where a run answers 0, source and layout stand whole; the source that it writes is never refused; and where nothing stands in its
/// way, it answers 0, or over rows that a net gets stuck, or out of memory.
pub fn gen_law()
    ensures headline { RunsHaveHeadlines }
    ensures spared { SourcesAreSpared }
    ensures free { FreeRunsEnd }
{
    circuit_law();
    circuits_are_checked();
    circuits_can_be_written();
    circuits_are_read_again();
    alike_law();
    machines_are_the_same();
    roots_are_the_same();
}

// The text of the circuit that is asked for.
fn source_text(alloc: Global, command: &GenCommand) -> Result<FileBytes, AllocError>
    requires { IsFitting command.now }
    ensures { IfOk result (λ bytes. bytes ≡ circuit_text command.now) }
{
    circuits_are_small();
    circuits_can_be_written();
    let machine = circuit(alloc, command.flow.seed, command.size)?;
    write_vbe_by(alloc, &machine, b"g")
}

// Writes it as the source.
fn write_source<S: Shelf>(alloc: Global, command: &GenCommand, shelf: &mut S) -> Result<(), Status>
    requires { IsFitting command.now }
    ensures written { OnOk result
        (Writes (S.seen shelf.old).files (S.seen shelf.new).files command.now.flow.source (circuit_text command.now)) }
    ensures counts { OnOk result (NoneFalls (S.seen shelf.old).counts (S.seen shelf.new).counts) }
    ensures unwritten { IfErr result (λ s. (t u : SinkSeen)
        → IsUnwritten command.now (outside (S.seen shelf.old) t) (outside (S.seen shelf.new) u) s) }
{
    let Ok(name) = command.flow.source.copy(alloc) else {
        return Err(Status::Memory);
    };
    let Ok(text) = source_text(alloc, command) else {
        return Err(Status::Memory);
    };
    match shelf.write(alloc, &name, text.as_bytes()) {
        Ok(()) => Ok(()),
        Err(ShelfError::Memory) => Err(Status::Memory),
        Err(ShelfError::Failed) => Err(Status::File {
            cause: FileCause::WriteFault,
            name,
        }),
        Err(ShelfError::Missing) => unreachable!(),
    }
}

/// Runs `gen`: writes the text of the circuit that is asked for as the source, and lays that out as `flow` does. What was written
/// stands, whatever `flow` then answers. Where it can't be written, that is told, and nothing is read.
pub fn run_gen<S: Shelf, T: Sink>(
    alloc: Global,
    command: &GenCommand,
    shelf: &mut S,
    out: &mut T,
) -> Status
    requires { IsFitting command.now }
    ensures run { IsRun command.now
        (outside (S.seen shelf.old) (T.seen out.old)) (outside (S.seen shelf.new) (T.seen out.new)) result }
    ensures line { has_line result ≡ true → IsLine (T.seen out.old) (T.seen out.new) (line_of (codes "gen") result) }
    ensures never_usage { result ≡ Status.Usage → ⊥ }
{
    match write_source(alloc, command, shelf) {
        Ok(()) => run_flow(alloc, b"gen", &command.flow, shelf, out),
        Err(status) => {
            tell(alloc, b"gen", &status, out);
            status
        }
    }
}
