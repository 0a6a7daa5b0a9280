// `fmi` as a tool: what it reads, and what it answers.
ghost use Rattle.std.specs.Prelude.{◌≡◌, ◌<◌, ◌^◌, length, IfOk};
ghost use Rattle.tool_drive.specs.Table.{IsJudged};
ghost use Rattle.fsm_print.specs.Writable.{CanBeFsm};
ghost use Rattle.fmi_run.specs.Fmi.{text_name, report, IsFileOf, Minimises};

use crate::minimised::minimised;
use crate::words::FmiCommand;
use fsm_core::StateMachine;
use fsm_io::read_fsm;
use fsm_print::{fsm_can_be_written, write_fsm};
use std::alloc::{AllocError, Global};
use tool_drive::{
    Answer, Product, Refusal, Tool, Wanted, bytes_at, count_text, file_name, refused,
};
use vlsi_base::FileBytes;

// The text of the machine, and how many states it has.
fn product(
    alloc: Global,
    command: &FmiCommand,
    machine: &StateMachine,
) -> Result<Product, AllocError>
    requires names { CanBeFsm machine.now }
    requires few { length machine.now.ports < 2 ^ 32 }
    ensures name { IfOk result (λ p. p.name ≡ text_name command.now.out) }
    ensures file { IfOk result (λ p. IsFileOf machine.now p.file) }
    ensures text { IfOk result (λ p. p.text ≡ report machine.now) }
{
    let file = write_fsm(alloc, machine)?;
    let count = machine.states().as_slice().len();
    let text = count_text(alloc, b"states", count as u128)?;
    let name = file_name(alloc, &command.out, b".fsm")?;
    Ok(Product {
        name,
        file: Some(file),
        text,
    })
}

// What the text comes to.
fn told(alloc: Global, command: &FmiCommand, source: &[u8]) -> Result<Product, Refusal>
    ensures { IsJudged (Minimises command.now source.now) result }
{
    // What is read can be written.
    fsm_can_be_written();
    let machine = match read_fsm(alloc, source) {
        Ok(machine) => machine,
        Err(error) => return Err(Refusal::plain(refused(alloc, &command.source, error))),
    };
    let made = match minimised(alloc, &machine) {
        Ok(made) => made,
        Err(status) => return Err(Refusal::plain(status)),
    };
    let written = product(alloc, command, &made)?;
    Ok(written)
}

/// `fmi`, with what it is asked: it writes the text of the state machine with the fewest states that does what the state machine of SOURCE
/// does to NAME.fsm, and prints `states` and how many it has. Of states that do the same the first in SOURCE is kept.
///
/// It is refused by `Source`, or a limit of the text, at the first fault of SOURCE; or else by `Limit` of `Inputs`, where the statements read
/// more than 12 input bits. Memory goes by the states, the vectors of the inputs that are read, and the different outputs.
impl Tool for FmiCommand {
    ghost use Rattle.fmi_run.specs.Fmi.{fmi_plan, fmi_answers};

    ghost plan = { fmi_plan };

    ghost answers = { fmi_answers };

    fn first(&self, alloc: Global) -> Result<Vec<Wanted>, AllocError> {
        let mut wanted = Vec::new(alloc);
        wanted.push(Wanted::limited(self.source.copy(alloc)?))?;
        Ok(wanted)
    }

    fn more(&self, alloc: Global, _: &[FileBytes]) -> Result<Vec<Wanted>, AllocError> {
        Ok(Vec::new(alloc))
    }

    fn judge(&self, alloc: Global, first: &[FileBytes], _: &[FileBytes]) -> Answer {
        told(alloc, self, bytes_at(first, 0))
    }
}
