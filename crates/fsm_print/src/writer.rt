// State machines as texts.
ghost use Rattle.std.specs.Prelude.{◌≡◌, ◌++◌, ◌<◌, ◌^◌, length, IfOk, OnOk};
ghost use Rattle.spell_theory.specs.Layout.{text_of};
ghost use Rattle.fsm_code.specs.View.{body_view};
ghost use Rattle.fsm_print.specs.Layout.{comma, behind, separated};
ghost use Rattle.fsm_print.specs.Pieces.{IsKnownBody};
ghost use Rattle.fsm_print.specs.Writable.{CanBeFsm};
ghost use Rattle.fsm_print.specs.Written.{AreWords, texts_of, head_layout, type_layout, signals_layout, step_layout, rise_layout, load_layout, clock_layout, declarations_layout, processes_layout, layout, pragma_line, pragma_lines, IsTextOf};

use crate::Words;
use crate::statements::Writer;
use crate::words::words_of;
use fsm_code::Statements;
use fsm_core::StateMachine;
use std::alloc::{AllocError, Global};
use vlsi_base::{FileBytes, Name, Text};
use vst_print::entity;

// A pragma on a line of its own.
fn pragma(out: &mut FileBytes, key: &[u8], name: &Text) -> Result<(), AllocError>
    ensures { OnOk result (out.new ≡ out.old ++ pragma_line key.now name.now) }
{
    out.append(b"-- pragma ")?;
    out.append(key)?;
    out.append(b" ")?;
    out.append(name.as_bytes())?;
    out.append(b"\n")
}

// Which names are the current state, the next state and the clock.
fn pragmas(out: &mut FileBytes, words: &Words, clock: &Text) -> Result<(), AllocError>
    ensures { OnOk result (out.new ≡ out.old ++ pragma_lines words.now clock.now) }
{
    pragma(out, b"current_state", &words.current)?;
    pragma(out, b"next_state", &words.next)?;
    pragma(out, b"clock", clock)
}

// What stands between the entity and the declarations.
fn head(out: &mut FileBytes, entity: &Text) -> Result<(), AllocError>
    ensures { OnOk result (out.new ≡ out.old ++ text_of (head_layout entity.now)) }
{
    out.append(b"\narchitecture fsm of ")?;
    out.append(entity.as_bytes())?;
    out.append(b" is\n")
}

// States behind others, each behind a comma.
fn further_names(out: &mut FileBytes, names: &[Name]) -> Result<(), AllocError>
    ensures { OnOk result (out.new ≡ out.old ++ text_of (behind comma (texts_of names.now))) }
{
    for name in names {
        out.append(b", ")?;
        out.append(name.text.as_bytes())?;
    }
    Ok(())
}

// All states.
fn state_names(out: &mut FileBytes, names: &[Name]) -> Result<(), AllocError>
    requires { 0 < length names.now }
    ensures { OnOk result (out.new ≡ out.old ++ text_of (separated comma (texts_of names.now))) }
{
    out.append(names[0].text.as_bytes())?;
    further_names(out, &names[1..])
}

// The type of the states.
fn state_type(out: &mut FileBytes, words: &Words) -> Result<(), AllocError>
    requires { 0 < length words.now.states }
    ensures { OnOk result (out.new ≡ out.old ++ text_of (type_layout words.now)) }
{
    out.append(b"type ")?;
    out.append(words.type_name.as_bytes())?;
    out.append(b" is (")?;
    state_names(out, words.states.as_slice())?;
    out.append(b");\n")
}

// The two signals.
fn signals(out: &mut FileBytes, words: &Words) -> Result<(), AllocError>
    ensures { OnOk result (out.new ≡ out.old ++ text_of (signals_layout words.now)) }
{
    out.append(b"signal ")?;
    out.append(words.current.as_bytes())?;
    out.append(b", ")?;
    out.append(words.next.as_bytes())?;
    out.append(b" : ")?;
    out.append(words.type_name.as_bytes())?;
    out.append(b";\n")
}

// The process that takes a step.
fn step(out: &mut FileBytes, writer: &Writer<'_>, body: &Statements) -> Result<(), AllocError>
    requires { IsKnownBody writer.now.words.now (body_view body.now) }
    ensures { OnOk result (out.new ≡ out.old ++ text_of (step_layout writer.now.words.now (body_view body.now))) }
{
    out.append(b"process begin\n")?;
    writer.body(out, body)?;
    out.append(b"end process;\n")
}

// The clock's rise.
fn rise(out: &mut FileBytes, clock: &Text) -> Result<(), AllocError>
    ensures { OnOk result (out.new ≡ out.old ++ text_of (rise_layout clock.now)) }
{
    out.append(clock.as_bytes())?;
    out.append(b" = '1' and not ")?;
    out.append(clock.as_bytes())?;
    out.append(b"'stable")
}

// The current state is given the next one.
fn load(out: &mut FileBytes, words: &Words) -> Result<(), AllocError>
    ensures { OnOk result (out.new ≡ out.old ++ text_of (load_layout words.now)) }
{
    out.append(words.current.as_bytes())?;
    out.append(b" <= ")?;
    out.append(words.next.as_bytes())?;
    out.append(b";\n")
}

// The process at the clock.
fn clock(out: &mut FileBytes, words: &Words, clock: &Text) -> Result<(), AllocError>
    ensures { OnOk result (out.new ≡ out.old ++ text_of (clock_layout words.now clock.now)) }
{
    out.append(b"process begin\nif ")?;
    rise(out, clock)?;
    out.append(b" then\n")?;
    load(out, words)?;
    out.append(b"end if;\nend process;\n")
}

// The declarations of the architecture, from its head on.
fn declarations(out: &mut FileBytes, words: &Words, entity: &Text) -> Result<(), AllocError>
    requires { 0 < length words.now.states }
    ensures { OnOk result (out.new ≡ out.old ++ text_of (declarations_layout words.now entity.now)) }
{
    head(out, entity)?;
    state_type(out, words)?;
    signals(out, words)?;
    out.append(b"begin\n")
}

// The two processes and the end of the architecture.
fn processes(
    out: &mut FileBytes,
    writer: &Writer<'_>,
    machine: &StateMachine,
) -> Result<(), AllocError>
    requires { AreWords machine.now writer.now.words.now }
    ensures { OnOk result (out.new ≡ out.old ++ text_of (processes_layout writer.now.words.now machine.now)) }
{
    step(out, writer, machine.body())?;
    clock(out, writer.words, &machine.clock().text)?;
    out.append(b"end fsm;\n")
}

// All but the pragmas.
fn source(
    out: &mut FileBytes,
    writer: &Writer<'_>,
    machine: &StateMachine,
) -> Result<(), AllocError>
    requires { AreWords machine.now writer.now.words.now }
    ensures { OnOk result (out.new ≡ out.old ++ text_of (layout writer.now.words.now machine.now)) }
{
    let ports = machine.ports().as_slice();
    entity(writer.alloc, out, machine.name(), ports)?;
    declarations(out, writer.words, machine.name())?;
    processes(out, writer, machine)
}

/// Writes a state machine as a text: pragmas that name the current state, the next state and the clock; its entity; and an architecture
/// `fsm` with the type of its states, in their order, two signals of that type, the process that takes a step, and the process that
/// loads the next state at the clock's rise. Each statement stands on a line, an output is assigned bit by bit, and an expression has
/// parentheses where operands aren't joined by one gate from the left. The type is called `state` and its signals `current_state` and
/// `next_state`, or the first of these words with a number behind it that no port and no state has.
///
/// Takes memory for the text and its names, and time for the text and, for each name, the logarithm of their number.
pub fn write_fsm(alloc: Global, machine: &StateMachine) -> Result<FileBytes, AllocError>
    requires names { CanBeFsm machine.now }
    requires few { length machine.now.ports < 2 ^ 32 }
    ensures { IfOk result (λ bytes. IsTextOf machine.now bytes) }
{
    let words = words_of(alloc, machine)?;
    let mut out = FileBytes::new(Vec::new(alloc));
    let writer = Writer {
        alloc,
        words: &words,
    };
    pragmas(&mut out, &words, &machine.clock().text)?;
    source(&mut out, &writer, machine)?;
    Ok(out)
}
