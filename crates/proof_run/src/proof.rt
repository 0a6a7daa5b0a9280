// `proof` as a tool: what it reads, and what it answers.
ghost use Rattle.std.specs.Prelude.{◌<◌, ◌^◌, ℕ, List, IfOk, IfErr, length};
ghost use Rattle.vbe_io.specs.Text.{IsVbe, IsVbeRefusal};
ghost use Rattle.proof_joint.specs.Clock.{as_compared};
ghost use Rattle.tool_drive.specs.Refusals.{MemoryOr, OfFile};
ghost use Rattle.tool_drive.specs.Table.{IsJudged};
ghost use Rattle.proof_run.specs.Proof.{Compares, IsProofRefusal, IsFinding, AreEqualSources, AreSameFunctions, IsSaidEqual};

use crate::words::ProofCommand;
use machine_core::Machine;
use proof_cmp::{ProofVerdict, ProveError, prove};
use std::alloc::{AllocError, Global};
use tool_drive::{Answer, Product, Refusal, Status, Tool, Verdict, Wanted, bytes_at, refused};
use vbe_io::read_vbe;
use vbe_laws::source_has_few_names;
use vlsi_base::{FileBytes, FileName};

// The machine of a source, or the status that tells why there is none.
fn machine_in(alloc: Global, file: &FileName, source: &[u8]) -> Result<Machine, Status>
    ensures machine { IfOk result (λ m. IsVbe source.now m) }
    ensures refused { IfErr result (λ s. MemoryOr s (OfFile file.now (IsVbeRefusal source.now) s)) }
{
    match read_vbe(alloc, source) {
        Ok(machine) => Ok(machine),
        Err(error) => Err(refused(alloc, file, error)),
    }
}

// Nothing where the machines are equal; or the status that tells how they differ, or why it isn't known.
fn equal_within(alloc: Global, a: &Machine, b: &Machine, budget: u32) -> Result<(), Status>
    requires first { length (as_compared a.now).vars < 2 ^ 32 }
    requires second { length (as_compared b.now).vars < 2 ^ 32 }
    ensures equal { IfOk result (λ _. AreSameFunctions a.now b.now budget) }
    ensures refused { IfErr result (λ s. MemoryOr s (IsFinding a.now b.now budget s)) }
{
    match prove(alloc, a, b, budget) {
        Ok(ProofVerdict::Equal) => Ok(()),
        Ok(ProofVerdict::Differs { name, bits: _ }) => Err(Status::No(Verdict::Unequal(name))),
        Ok(ProofVerdict::Names(name)) => Err(Status::No(Verdict::Names(name))),
        Err(ProveError::Memory) => Err(Status::Memory),
        Err(ProveError::Budget(equation)) => Err(Status::Budget {
            equation,
            reached: u64::from(budget) + 1,
        }),
    }
}

// What is printed of equal machines.
fn product(alloc: Global, command: &ProofCommand) -> Result<Product, AllocError>
    ensures { IfOk result (λ p. IsSaidEqual command.now p) }
{
    Ok(Product {
        name: command.source.copy(alloc)?,
        file: None,
        text: FileBytes::from_bytes(alloc, b"equal\n")?,
    })
}

// Nothing where the second text is a machine of the same functions as the first one; or the status that tells why it isn't.
fn other_is_equal(
    alloc: Global,
    command: &ProofCommand,
    first: &Machine,
    other: &[u8],
) -> Result<(), Status>
    requires { length (as_compared first.now).vars < 2 ^ 32 }
    ensures equal { IfOk result (λ _. (source : List ℕ) → IsVbe source first.now → AreEqualSources command.now source other.now) }
    ensures refused { IfErr result (λ s. (source : List ℕ) → IsVbe source first.now → MemoryOr s (IsProofRefusal command.now source other.now s)) }
{
    source_has_few_names();
    match machine_in(alloc, &command.other, other) {
        Ok(second) => equal_within(alloc, first, &second, command.nodes),
        Err(status) => Err(status),
    }
}

// Nothing where the two texts are machines of the same functions; or the status that tells why they aren't.
fn sources_are_equal(
    alloc: Global,
    command: &ProofCommand,
    source: &[u8],
    other: &[u8],
) -> Result<(), Status>
    ensures equal { IfOk result (λ _. AreEqualSources command.now source.now other.now) }
    ensures refused { IfErr result (λ s. MemoryOr s (IsProofRefusal command.now source.now other.now s)) }
{
    source_has_few_names();
    match machine_in(alloc, &command.source, source) {
        Ok(first) => other_is_equal(alloc, command, &first, other),
        Err(status) => Err(status),
    }
}

// What the two texts come to.
fn compared(
    alloc: Global,
    command: &ProofCommand,
    source: &[u8],
    other: &[u8],
) -> Result<Product, Refusal>
    ensures { IsJudged (Compares command.now source.now other.now) result }
{
    match sources_are_equal(alloc, command, source, other) {
        Ok(()) => {}
        Err(status) => return Err(Refusal::plain(status)),
    }
    let said = product(alloc, command)?;
    Ok(said)
}

/// `proof`, with what it is asked: it compares the machines of SOURCE and of a second source, and prints `equal`.
///
/// It is refused, in this order: by `Source`, or a limit of the text, of SOURCE and then of the second source; by `Names`, where the
/// machines differ by a name; by `Budget`, at the first roots whose diagram has more nodes than asked for; by `Unequal`, at the first
/// roots that are different functions. Memory goes by the two files, the two machines and one diagram.
impl Tool for ProofCommand {
    ghost use Rattle.proof_run.specs.Proof.{proof_plan, proof_answers};

    ghost plan = { proof_plan };

    ghost answers = { proof_answers };

    fn first(&self, alloc: Global) -> Result<Vec<Wanted>, AllocError> {
        let mut wanted = Vec::new(alloc);
        wanted.push(Wanted::limited(self.source.copy(alloc)?))?;
        wanted.push(Wanted::limited(self.other.copy(alloc)?))?;
        Ok(wanted)
    }

    fn more(&self, alloc: Global, _first: &[FileBytes]) -> Result<Vec<Wanted>, AllocError> {
        Ok(Vec::new(alloc))
    }

    fn judge(&self, alloc: Global, first: &[FileBytes], _more: &[FileBytes]) -> Answer {
        compared(alloc, self, bytes_at(first, 0), bytes_at(first, 1))
    }
}
