// `syf` as a tool: what it reads, and what it answers.
ghost use Rattle.std.specs.Prelude.{◌≡◌, ◌+◌, ◌<◌, ◌^◌, Some, length, IfOk};
ghost use Rattle.tool_drive.specs.Table.{IsJudged};
ghost use Rattle.spell_theory.specs.Layout.{text_of};
ghost use Rattle.vbe_print.specs.Written.{layout};
ghost use Rattle.vbe_print.specs.Writable.{CanBeVbe};
ghost use Rattle.syf_run.specs.Syf.{code_lines as code_lines_of, text_name, Encodes};

use crate::encoded::{Encoded, encoded_machine, style_of};
use crate::lines::code_lines;
use crate::words::SyfCommand;
use fsm_core::StateMachine;
use fsm_io::read_fsm;
use fsm_laws::{machine_has_few_signals, machine_of_fsm_can_be_written};
use std::alloc::{AllocError, Global};
use tool_drive::{Answer, Product, Refusal, Tool, Wanted, bytes_at, file_name, refused};
use vbe_print::write_vbe;
use vlsi_base::FileBytes;

// The text of the machine, and the lines of the codes.
fn product(
    alloc: Global,
    command: &SyfCommand,
    states: &StateMachine,
    made: &Encoded,
) -> Result<Product, AllocError>
    requires names { CanBeVbe made.now.machine }
    requires few { length made.now.machine.vars + length made.now.machine.ports < 2 ^ 32 }
    ensures name { IfOk result (λ p. p.name ≡ text_name command.now.out) }
    ensures file { IfOk result (λ p. p.file ≡ Some (text_of (layout made.now.machine))) }
    ensures text { IfOk result (λ p. p.text ≡ code_lines_of states.now.states made.now.codes.codes) }
{
    let file = write_vbe(alloc, &made.machine)?;
    let mut text = FileBytes::new(Vec::new(alloc));
    let names = states.states().as_slice();
    code_lines(alloc, &mut text, names, made.codes.as_slice())?;
    let name = file_name(alloc, &command.out, b".vbe")?;
    Ok(Product {
        name,
        file: Some(file),
        text,
    })
}

// What the text comes to.
fn encodes(alloc: Global, command: &SyfCommand, source: &[u8]) -> Result<Product, Refusal>
    ensures { IsJudged (Encodes command.now source.now) result }
{
    // What is read has names that can be written, and few signals.
    machine_of_fsm_can_be_written();
    machine_has_few_signals();
    let states = match read_fsm(alloc, source) {
        Ok(states) => states,
        Err(error) => return Err(Refusal::plain(refused(alloc, &command.source, error))),
    };
    let made = encoded_machine(alloc, &states, style_of(command.encoding, command.seed))?;
    let written = product(alloc, command, &states, &made)?;
    Ok(written)
}

/// `syf`, with what it is asked: it gives codes to the states of the state machine of SOURCE, writes its machine as a data-flow text
/// to NAME.vbe, and prints each state with its code. It is refused by `Source`, or a limit of the text, at the first fault of SOURCE.
impl Tool for SyfCommand {
    ghost use Rattle.syf_run.specs.Syf.{syf_plan, syf_answers};

    ghost plan = { syf_plan };

    ghost answers = { syf_answers };

    fn first(&self, alloc: Global) -> Result<Vec<Wanted>, AllocError> {
        let mut wanted = Vec::new(alloc);
        wanted.push(Wanted::limited(self.source.copy(alloc)?))?;
        Ok(wanted)
    }

    fn more(&self, alloc: Global, _: &[FileBytes]) -> Result<Vec<Wanted>, AllocError> {
        Ok(Vec::new(alloc))
    }

    fn judge(&self, alloc: Global, first: &[FileBytes], _: &[FileBytes]) -> Answer {
        encodes(alloc, self, bytes_at(first, 0))
    }
}
