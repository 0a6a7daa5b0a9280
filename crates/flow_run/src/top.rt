// The top call: words, and then the tool that they ask for.
ghost use Rattle.std.specs.Prelude.{◌≡◌, ◌⊎◌, true, IfSome, Some, None};
ghost use Rattle.tool_drive.specs.Outside.{outside, IsLine};
ghost use Rattle.tool_drive.specs.Status.{has_line};
ghost use Rattle.tool_drive.specs.Lines.{line_of as line_of_tool};
ghost use Rattle.tool_drive.specs.Table.{Caused, IsComplete};
ghost use Rattle.tool_run.specs.Usage.{line_of};
ghost use Rattle.tool_run.specs.Answers.{IsAnswerTo};
ghost use Rattle.flow_words.specs.Words.{IsWithinBounds};
ghost use Rattle.flow_run.specs.Commands.{command_of, word_of, as_flow, flow_in, as_gen, gen_in, as_tool, tool_in};
ghost use Rattle.flow_run.specs.Flow.{flow_plan, flow_answers};
ghost use Rattle.flow_run.specs.Causes.{IsHeadline, IsFree, Ends};
ghost use Rattle.flow_run.specs.Generated.{IsFitting, IsRun, IsGenHeadline, IsSourceSpared, IsGenFree};

use crate::command::{Command, read_words};
use crate::flow::run_flow;
use crate::gen_run::{gen_law, run_gen};
use crate::reading::reading_law;
use flow_words::words_are_within_bounds;
use std::alloc::Global;
use tool_run::{Status, refuse_words, run_tool, words_law};
use tool_words::Words;
use vlsi_shelf::{Shelf, Sink};

// Runs the tool that a command is for.
fn run<S: Shelf, T: Sink>(alloc: Global, command: &Command, shelf: &mut S, out: &mut T) -> Status
    requires bounds { IfSome (as_flow (Some command.now)) IsWithinBounds }
    requires fitting { IfSome (as_gen (Some command.now)) IsFitting }
    ensures cause { IfSome (as_flow (Some command.now)) (λ c. Caused (flow_plan c) (flow_answers c)
        (outside (S.seen shelf.old) (T.seen out.old)) (outside (S.seen shelf.new) (T.seen out.new)) result) }
    ensures complete { IfSome (as_flow (Some command.now)) (λ c. IsComplete (flow_plan c) (flow_answers c)
        (outside (S.seen shelf.old) (T.seen out.old)) (outside (S.seen shelf.new) (T.seen out.new)) result) }
    ensures run { IfSome (as_gen (Some command.now)) (λ c. IsRun c
        (outside (S.seen shelf.old) (T.seen out.old)) (outside (S.seen shelf.new) (T.seen out.new)) result) }
    ensures answer { IfSome (as_tool (Some command.now)) (λ k. IsAnswerTo k
        (outside (S.seen shelf.old) (T.seen out.old)) (outside (S.seen shelf.new) (T.seen out.new)) result) }
    ensures line { has_line result ≡ true
        → IsLine (T.seen out.old) (T.seen out.new) (line_of_tool (word_of command.now) result) }
    ensures never_usage { result ≡ Status.Usage → ⊥ }
{
    match command {
        Command::Flow(flow) => run_flow(alloc, b"flow", flow, shelf, out),
        Command::Gen(generate) => run_gen(alloc, generate, shelf, out),
        Command::Tool(tool) => run_tool(alloc, tool, shelf, out),
    }
}

/// Does what the words ask, over a shelf and a sink: `flow` lays the source out with the cells of the library, `gen` first makes a
/// source of a number, `syf` makes a data-flow source of a state machine, `boom` makes the source smaller, `boog` makes a netlist
/// of these cells, `loon` puts buffers into a netlist and chooses its cells, `ocp` places a netlist in rows, `nero` routes it over
/// its placement, `asimut` runs patterns on the source, or on the netlist of the library's cells, `cougar` takes the netlist out of
/// a layout of these cells, `lvx` compares two netlists by name, `druc` lists where a layout breaks the rules, `proof` compares two
/// sources as functions, `flatbeh` makes a data-flow source of a netlist, `s2r` makes a layout real, `scapin` puts a scan path into a
/// netlist, `fmi` makes a state machine with the fewest states, `rip` routes and tears out what is in the way, and `area` says the least
/// area of a source's trees.
///
/// The words are taken apart first, and only then is a file read. A tool reads its files in their order, then writes its file,
/// if it has one, and then prints its text by one put.
///
/// - `flow` reads SOURCE, CATAL, and the behaviour and the layout of each cell that this uses, writes the layout to NAME.ap and
///   prints the report; where a net gets stuck over rows, it writes what stood so far to NAME_part.ap.
/// - `gen` first writes the source to NAME.vbe, and then does with it what `flow` does.
/// - `syf` reads SOURCE, writes the data-flow source to NAME.vbe and prints each state with its code.
/// - `boom` reads SOURCE, writes the smaller one to NAME.vbe and prints how large it is.
/// - `boog` reads the same files as `flow`, writes the netlist to NAME.vst and prints how many cells it has.
/// - `loon` reads the same files as `boog`, with a netlist for SOURCE, writes the new netlist to NAME.vst and prints how many cells it
///   has and how many femtoseconds its longest path takes.
/// - `ocp` reads the same files as `loon`, writes the placement to NAME.ap and prints how long its nets are.
/// - `nero` reads the same files, with a placement behind SOURCE, writes the layout to NAME.ap and prints how many nets it has; where a
///   net gets stuck, it writes what stood so far to NAME_part.ap.
/// - `asimut` reads SOURCE and PATTERNS, for a netlist also CATAL and the behaviour and the layout of each cell that this uses, and
///   prints the patterns with every output filled in.
/// - `cougar` reads the same files as `boog`, with a layout for SOURCE, writes the netlist to NAME.vst and prints how many cells and
///   nets it has.
/// - `lvx` reads SOURCE, OTHER, and the files of the library, and prints that the netlists are the same.
/// - `druc` reads the same files as `cougar`, and prints what breaks the rules, and how often.
/// - `proof` reads SOURCE and OTHER, and prints that they are equal.
/// - `flatbeh` reads the same files as `boog`, with a netlist for SOURCE, writes the source to NAME.vbe and prints how large it is.
/// - `s2r` reads a layout, a table and the files of the library, writes the boxes to NAME.cif and prints how many they are.
/// - `scapin` reads a netlist, a path and the files of the library, writes the new netlist to NAME.vst and prints how many cells it has.
/// - `fmi` reads SOURCE, writes the state machine to NAME.fsm and prints how many states it has.
/// - `rip` reads and writes what `nero` does, and prints how often a net was torn out as well.
/// - `area` reads the same files as `boog`, and prints how many trees there are and their least area.
///
/// A refusal prints its line by one put; if that fails the status stays as it was. Memory for what is read and answered is taken on
/// `alloc` and given back.
pub fn alliance_main<S: Shelf, T: Sink>(
    alloc: Global,
    words: &Words,
    shelf: &mut S,
    out: &mut T,
) -> Status
    // Usage comes only where the words spell no command; there nothing else comes but out of memory, and the shelf is as it was.
    ensures usage { result ≡ Status.Usage → command_of words.now ≡ None }
    ensures words { command_of words.now ≡ None → (result ≡ Status.Usage) ⊎ (result ≡ Status.Memory) }
    ensures nothing { command_of words.now ≡ None → shelf.new ≡ shelf.old }

    // Every status has its cause and leaves the files that its row says.
    ensures cause { IfSome (flow_in words.now) (λ c. Caused (flow_plan c) (flow_answers c)
        (outside (S.seen shelf.old) (T.seen out.old)) (outside (S.seen shelf.new) (T.seen out.new)) result) }

    // Over told files, where nothing failed, every reading has its one answer.
    ensures complete { IfSome (flow_in words.now) (λ c. IsComplete (flow_plan c) (flow_answers c)
        (outside (S.seen shelf.old) (T.seen out.old)) (outside (S.seen shelf.new) (T.seen out.new)) result) }

    // Where the answer is 0, NAME.ap is a right layout of the source by the library, and the report on it was printed.
    ensures headline { IfSome (flow_in words.now) (λ c. result ≡ Status.Accepted
        → IsHeadline c (outside (S.seen shelf.old) (T.seen out.old)) (outside (S.seen shelf.new) (T.seen out.new))) }

    // Where all files are there, the source is a machine or a state machine within the limits, the others are a library that covers
    // it, no diagram is over the budget, and no call failed, the answer is 0, or over rows that a net gets stuck, or out of memory.
    ensures lays { IfSome (flow_in words.now) (λ c. IsFree c (outside (S.seen shelf.old) (T.seen out.old)) (outside (S.seen shelf.new) (T.seen out.new))
        → Ends c.tracks result) }

    // `gen` writes NAME.vbe, the text of the circuit that is made of the seed, and answers from there as `flow` does; or it can't
    // write it.
    ensures run { IfSome (gen_in words.now) (λ c. IsRun c
        (outside (S.seen shelf.old) (T.seen out.old)) (outside (S.seen shelf.new) (T.seen out.new)) result) }

    // Where it answers 0, NAME.vbe is a text of exactly this circuit, NAME.ap is a right layout of exactly this circuit, and the report
    // on it was printed.
    ensures generated { IfSome (gen_in words.now) (λ c. result ≡ Status.Accepted
        → IsGenHeadline c (outside (S.seen shelf.old) (T.seen out.old)) (outside (S.seen shelf.new) (T.seen out.new))) }

    // Over told files, whatever the library is, status 2 never comes, and 9 comes for a file of the library alone.
    ensures spared { IfSome (gen_in words.now) (λ c. IsSourceSpared c (outside (S.seen shelf.old) (T.seen out.old)) result) }

    // Where all files of the library are there, and are one that covers it, no diagram is over the budget, and no call failed, it
    // answers 0, or over rows that a net gets stuck, or out of memory.
    ensures generates { IfSome (gen_in words.now) (λ c. IsGenFree c (outside (S.seen shelf.old) (T.seen out.old)) (outside (S.seen shelf.new) (T.seen out.new))
        → Ends c.flow.tracks result) }

    // The answers of every other tool: each has its cause and leaves the files that its row says, and over told files, where nothing
    // failed, it is what the files come to.
    ensures answer { IfSome (tool_in words.now) (λ k. IsAnswerTo k
        (outside (S.seen shelf.old) (T.seen out.old)) (outside (S.seen shelf.new) (T.seen out.new)) result) }

    // A refusal prints its line and nothing else, as far as memory and the sink let it.
    ensures line { has_line result ≡ true → IsLine (T.seen out.old) (T.seen out.new) (line_of words.now result) }
{
    words_law();
    words_are_within_bounds();
    reading_law();
    gen_law();
    match read_words(alloc, words) {
        Ok(command) => run(alloc, &command, shelf, out),
        Err(error) => refuse_words(alloc, words, error, out),
    }
}
