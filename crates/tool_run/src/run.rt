// The tools beside `flow` and `gen`, each by the driver.
ghost use Rattle.std.specs.Prelude.{◌≡◌, true};
ghost use Rattle.tool_drive.specs.Outside.{outside, IsLine};
ghost use Rattle.tool_drive.specs.Status.{has_line};
ghost use Rattle.tool_drive.specs.Lines.{line_of};
ghost use Rattle.tool_run.specs.Answers.{IsAnswerTo, word_of};

use crate::words::Command;
use asimut_run::AsimutTask;
use cell_lib::WithLibrary;
use std::alloc::Global;
use tool_drive::{Status, drive};
use vlsi_shelf::{Shelf, Sink};

fn run_asimut<S: Shelf, T: Sink>(
    alloc: Global,
    task: &AsimutTask,
    shelf: &mut S,
    out: &mut T,
) -> Status
    ensures answer { IsAnswerTo (Command.Asimut task.now)
        (outside (S.seen shelf.old) (T.seen out.old)) (outside (S.seen shelf.new) (T.seen out.new)) result }
    ensures line { has_line result ≡ true → IsLine (T.seen out.old) (T.seen out.new) (line_of (word_of (Command.Asimut task.now)) result) }
    ensures never_usage { result ≡ Status.Usage → ⊥ }
{
    match task {
        AsimutTask::Source(command) => drive(alloc, b"asimut", command, shelf, out),
        AsimutTask::Netlist(command) => drive(alloc, b"asimut", &WithLibrary(command), shelf, out),
    }
}

/// Runs the tool that a command is for. `flow` and `gen` aren't run here, but by the crate that has the top call.
pub fn run_tool<S: Shelf, T: Sink>(
    alloc: Global,
    command: &Command,
    shelf: &mut S,
    out: &mut T,
) -> Status
    // Every status has its cause and leaves the files that its row says, and over told files, where nothing failed, it is what the
    // files come to.
    ensures answer { IsAnswerTo command.now
        (outside (S.seen shelf.old) (T.seen out.old)) (outside (S.seen shelf.new) (T.seen out.new)) result }

    // A refusal prints its line and nothing else, as far as memory and the sink let it.
    ensures line { has_line result ≡ true → IsLine (T.seen out.old) (T.seen out.new) (line_of (word_of command.now) result) }
    ensures never_usage { result ≡ Status.Usage → ⊥ }
{
    match command {
        Command::Syf(command) => drive(alloc, b"syf", command, shelf, out),
        Command::Boom(command) => drive(alloc, b"boom", command, shelf, out),
        Command::Boog(command) => drive(alloc, b"boog", &WithLibrary(command), shelf, out),
        Command::Loon(command) => drive(alloc, b"loon", &WithLibrary(command), shelf, out),
        Command::Ocp(command) => drive(alloc, b"ocp", &WithLibrary(command), shelf, out),
        Command::Nero(command) => drive(alloc, b"nero", &WithLibrary(command), shelf, out),
        Command::Asimut(task) => run_asimut(alloc, task, shelf, out),
        Command::Cougar(command) => drive(alloc, b"cougar", &WithLibrary(command), shelf, out),
        Command::Lvx(command) => drive(alloc, b"lvx", &WithLibrary(command), shelf, out),
        Command::Druc(command) => drive(alloc, b"druc", &WithLibrary(command), shelf, out),
        Command::Proof(command) => drive(alloc, b"proof", command, shelf, out),
        Command::Flatbeh(command) => drive(alloc, b"flatbeh", &WithLibrary(command), shelf, out),
        Command::S2r(command) => drive(alloc, b"s2r", &WithLibrary(command), shelf, out),
        Command::Scapin(command) => drive(alloc, b"scapin", &WithLibrary(command), shelf, out),
        Command::Fmi(command) => drive(alloc, b"fmi", command, shelf, out),
        Command::Rip(command) => drive(alloc, b"rip", &WithLibrary(command), shelf, out),
        Command::Area(command) => drive(alloc, b"area", &WithLibrary(command), shelf, out),
    }
}
