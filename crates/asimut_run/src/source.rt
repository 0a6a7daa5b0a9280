// `asimut` as a tool: patterns run on a source.
ghost use Rattle.std.specs.Prelude.{◌≡◌, IfOk};
ghost use Rattle.tool_drive.specs.Table.{IsJudged};
ghost use Rattle.asimut_run.specs.Asimut.{label_of, IsToldOf, Simulates};

use crate::words::AsimutCommand;
use asimut_sim::{SimError, simulate};
use pat_io::{read_pat, write_pat};
use pat_meaning::Pattern;
use std::alloc::{AllocError, Global};
use tool_drive::{Answer, Product, Refusal, Status, Tool, Verdict, Wanted, bytes_at, refused};
use vbe_io::read_vbe;
use vlsi_base::{FileBytes, Text, push_u64};

// The label of the pattern with this number from 0, or the number.
pub(crate) fn label(alloc: Global, patterns: &[Pattern], number: usize) -> Result<Text, AllocError>
    ensures { IfOk result (λ label. label ≡ label_of patterns.now number) }
{
    if let Some(pattern) = patterns.get(number) {
        if let Some(label) = &pattern.label {
            return label.copy(alloc);
        }
    }
    let mut label = Text::new(Vec::new(alloc));
    push_u64(alloc, &mut label, number as u64)?;
    Ok(label)
}

fn different(alloc: Global, patterns: &[Pattern], error: SimError) -> Status
    ensures { IsToldOf patterns.now error result }
{
    match error {
        SimError::Memory => Status::Memory,
        SimError::Differs { pattern, name } => match label(alloc, patterns, pattern) {
            Ok(label) => Status::No(Verdict::Differs { label, name }),
            Err(_) => Status::Memory,
        },
    }
}

// What the two texts come to.
fn simulated(
    alloc: Global,
    command: &AsimutCommand,
    source: &[u8],
    patterns: &[u8],
) -> Result<Product, Refusal>
    ensures { IsJudged (Simulates command.now source.now patterns.now) result }
{
    let machine = match read_vbe(alloc, source) {
        Ok(machine) => machine,
        Err(error) => return Err(Refusal::plain(refused(alloc, &command.source, error))),
    };
    let read = match read_pat(alloc, patterns, machine.ports()) {
        Ok(read) => read,
        Err(error) => return Err(Refusal::plain(refused(alloc, &command.patterns, error))),
    };
    let filled = match simulate(alloc, &machine, &read) {
        Ok(filled) => filled,
        Err(error) => {
            let patterns = read.patterns.as_slice();
            return Err(Refusal::plain(different(alloc, patterns, error)));
        }
    };
    let text = write_pat(alloc, &filled)?;
    let name = command.source.copy(alloc)?;
    Ok(Product {
        name,
        file: None,
        text,
    })
}

/// `asimut`, with what it is asked.
impl Tool for AsimutCommand {
    ghost use Rattle.asimut_run.specs.Asimut.{asimut_plan, asimut_answers};

    ghost plan = { asimut_plan };

    ghost answers = { asimut_answers };

    fn first(&self, alloc: Global) -> Result<Vec<Wanted>, AllocError> {
        let mut wanted = Vec::new(alloc);
        wanted.push(Wanted::limited(self.source.copy(alloc)?))?;
        wanted.push(Wanted::limited(self.patterns.copy(alloc)?))?;
        Ok(wanted)
    }

    fn more(&self, alloc: Global, _: &[FileBytes]) -> Result<Vec<Wanted>, AllocError> {
        Ok(Vec::new(alloc))
    }

    fn judge(&self, alloc: Global, first: &[FileBytes], _: &[FileBytes]) -> Answer {
        simulated(alloc, self, bytes_at(first, 0), bytes_at(first, 1))
    }
}
