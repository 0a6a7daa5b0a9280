// `boom` as a tool: what it reads, and what it answers.
ghost use Rattle.std.specs.Prelude.{◌≡◌, ◌≤◌, ◌<◌, ◌+◌, ◌-◌, ◌^◌, IfOk, IfErr, List, ℕ, length};
ghost use Rattle.machine_core.specs.Size.{machine_size as size_of};
ghost use Rattle.machine_roots.specs.Roots.{IsGreatestDcount};
ghost use Rattle.vbe_io.specs.Text.{IsVbe};
ghost use Rattle.tool_drive.specs.Refusals.{MemoryOr};
ghost use Rattle.tool_drive.specs.Table.{IsJudged};
ghost use Rattle.tool_drive.specs.declared.size.TheConstants.{MOST_SIZE};
ghost use Rattle.vbe_print.specs.Writable.{CanBeVbe};
ghost use Rattle.boom_run.specs.Boom.{MakesSmaller, IsWrittenAs, IsWithinBudget, IsBudgetStatus, report as report_of};

use crate::words::BoomCommand;
use boom_opt::{BoomError, Optimised, optimise};
use machine_core::{Machine, machine_size};
use std::alloc::{AllocError, Global};
use tool_drive::{
    Answer, Product, Refusal, Status, Tool, Wanted, bytes_at, check_size, count_text, file_name,
    refused,
};
use vbe_io::read_vbe;
use vbe_laws::source_has_few_names;
use vbe_print::write_vbe;
use vbe_writable::{in_order_can_be_written, machine_is_named, registers_are_named};
use vlsi_base::FileBytes;

/// The machine made smaller, and the most nodes that a diagram of the given one's roots has; or the status that tells why there is
/// none: `Budget`, at the first root whose diagram has more nodes than this, or out of memory.
pub fn optimise_within(alloc: Global, machine: &Machine, budget: u32) -> Result<Optimised, Status>
    requires few { length machine.now.vars + length machine.now.ports + size_of machine.now < 2 ^ 32 - 1 }
    ensures made { IfOk result (λ o. IsWithinBudget machine.now budget o.machine) }
    ensures nodes { IfOk result (λ o. IsGreatestDcount machine.now o.nodes) }
    ensures refused { IfErr result (λ s. MemoryOr s (IsBudgetStatus machine.now budget s)) }
{
    match optimise(alloc, machine, budget) {
        Ok(made) => Ok(made),
        Err(BoomError::Memory) => Err(Status::Memory),
        Err(BoomError::Budget(equation)) => Err(Status::Budget {
            equation,
            reached: u64::from(budget) + 1,
        }),
    }
}

// How large a machine is.
fn report(alloc: Global, machine: &Machine) -> Result<FileBytes, AllocError>
    requires { size_of machine.now ≤ MOST_SIZE }
    ensures { IfOk result (λ text. text ≡ report_of machine.now) }
{
    count_text(alloc, b"size", u128::from(machine_size(machine)))
}

// The smaller source's file, NAME.vbe, and what is printed.
fn product(alloc: Global, command: &BoomCommand, machine: &Machine) -> Result<Product, AllocError>
    requires small { size_of machine.now ≤ MOST_SIZE }
    requires few { length machine.now.vars + length machine.now.ports < 2 ^ 32 }
    requires names { CanBeVbe machine.now }
    ensures { IfOk result (λ p. IsWrittenAs command.now machine.now p) }
{
    let name = file_name(alloc, &command.out, b".vbe")?;
    let file = write_vbe(alloc, machine)?;
    Ok(Product {
        name,
        file: Some(file),
        text: report(alloc, machine)?,
    })
}

// What the machine of a text comes to, optimised.
fn optimised_source(
    alloc: Global,
    command: &BoomCommand,
    machine: &Machine,
) -> Result<Product, Refusal>
    requires { (source : List ℕ) × IsVbe source machine.now }
    ensures { (source : List ℕ) → IsVbe source machine.now → IsJudged (MakesSmaller command.now source) result }
{
    // What is read, and what is alike, has names that can be written, and few of them.
    source_has_few_names();
    machine_is_named();
    registers_are_named();
    in_order_can_be_written();
    match check_size(machine) {
        Ok(()) => {}
        Err(status) => return Err(Refusal::plain(status)),
    }
    let made = match optimise_within(alloc, machine, command.nodes) {
        Ok(made) => made,
        Err(status) => return Err(Refusal::plain(status)),
    };
    // A machine is checked.
    let _ = made.machine.name();
    let written = product(alloc, command, &made.machine)?;
    Ok(written)
}

// What the text comes to.
fn made_smaller(alloc: Global, command: &BoomCommand, source: &[u8]) -> Result<Product, Refusal>
    ensures { IsJudged (MakesSmaller command.now source.now) result }
{
    let machine = match read_vbe(alloc, source) {
        Ok(machine) => machine,
        Err(error) => return Err(Refusal::plain(refused(alloc, &command.source, error))),
    };
    optimised_source(alloc, command, &machine)
}

/// `boom`, with what it is asked: it makes the machine of SOURCE smaller, writes it to NAME.vbe, and prints `size` and how large it
/// is.
///
/// It is refused, in this order: by `Source`, or a limit of the text; by `Limit` of `Size`, where the machine weighs more than
/// `MOST_SIZE`; by `Budget`, at the first root whose diagram has more nodes than asked for. Memory goes by the file, the machine and
/// one diagram.
impl Tool for BoomCommand {
    ghost use Rattle.boom_run.specs.Boom.{boom_plan, boom_answers};

    ghost plan = { boom_plan };

    ghost answers = { boom_answers };

    fn first(&self, alloc: Global) -> Result<Vec<Wanted>, AllocError> {
        let mut wanted = Vec::new(alloc);
        wanted.push(Wanted::limited(self.source.copy(alloc)?))?;
        Ok(wanted)
    }

    fn more(&self, alloc: Global, _first: &[FileBytes]) -> Result<Vec<Wanted>, AllocError> {
        Ok(Vec::new(alloc))
    }

    fn judge(&self, alloc: Global, first: &[FileBytes], _more: &[FileBytes]) -> Answer {
        made_smaller(alloc, self, bytes_at(first, 0))
    }
}
