// The reader.
ghost use Rattle.std.specs.Prelude.{◌≡◌, Some, None, IfOk, IfErr, OnOk};
ghost use Rattle.std.specs.Option.{option_copied};
ghost use Rattle.pat_meaning.specs.Answers.{AreFor};
ghost use Rattle.pat_lexer.specs.Listing.{tokens_in, refusal_in};
ghost use Rattle.pat_io.specs.Digits.{patterns_for};
ghost use Rattle.pat_io.specs.PatternText.{line_error, fault_in, OrMemory, IsWritten, IsPatternText, IsPatternRefusal};

use crate::build::patterns;
use crate::index::Index;
use crate::known::unknown;
use crate::times::time_fault;
use crate::widths::width_fault;
use pat_lexer::tokens;
use pat_meaning::Patterns;
use pat_text::{PatternFile, read_patterns};
use std::alloc::Global;
use vlsi_base::{
    FaultKind, InputFault, Limit, LimitKind, MOST_SOURCE_BYTES, Name, Names, Port, Ports, ReadError,
};

fn at_line(alloc: Global, kind: FaultKind, line: u32) -> ReadError
    ensures { Some result ≡ line_error kind (Some line) }
{
    ReadError::Input(InputFault {
        line,
        kind,
        names: Names::new(Vec::new(alloc)),
    })
}

/// Looks for the first fault of what is written.
#[tactic(auto, unfolding(crate::specs::PatternText::fault_in))]
fn check(alloc: Global, ports: &[Port], parsed: &PatternFile) -> Result<(), ReadError>
    ensures faultless { OnOk result (fault_in ports.now parsed.now ≡ None) }
    ensures faulty { IfErr result (λ e. OrMemory (fault_in ports.now parsed.now) e) }
{
    let index = Index::of(alloc, ports)?;
    if let Some(fault) = unknown(alloc, &index, ports, parsed.columns.as_slice())? {
        return Err(ReadError::Input(fault));
    }
    if let Some(line) = width_fault(alloc, &index, ports, parsed)? {
        return Err(at_line(alloc, FaultKind::Width, line));
    }
    match time_fault(parsed.patterns.as_slice()) {
        Some(line) => Err(at_line(alloc, FaultKind::TimeBack, line)),
        None => Ok(()),
    }
}

/// What is written in a pattern file.
fn written(alloc: Global, bytes: &[u8], ports: &Ports) -> Result<PatternFile, ReadError>
    ensures written { IfOk result (λ parsed. IsWritten bytes.now parsed) }
    ensures refused { IfErr result (λ e. IsPatternRefusal bytes.now ports.now e) }
{
    if bytes.len() > MOST_SOURCE_BYTES {
        return Err(ReadError::Limit(Limit {
            which: LimitKind::File,
            reached: MOST_SOURCE_BYTES as u64 + 1,
        }));
    }
    let tokens = tokens(alloc, bytes)?;
    read_patterns(alloc, &tokens)
}

/// Reads a pattern file for these ports, a machine's port bits without vdd and vss. The time of a pattern stays as it is
/// written; the bits of a value are from the left.
///
/// It is refused, in this order: `Limit` of `File` with 1,048,577 reached, where it has more than 1,048,576 bytes; what the
/// lexer refuses; `Input` with `Syntax` at the first token with which the tokens so far begin no pattern file; with
/// `Unknown` at the first listed name that is no port of its direction, nor vdd or vss as an input, with that name, or that
/// lists a bit once more, with the first such bit from the left; with `Width` at the first name that is listed with other
/// bits than it has, or the first value with more or fewer digits than its column needs or a bit set that the column hasn't;
/// with `TimeBack` at the first pattern that is before the one before it. Only `Unknown` has a name. It takes memory by the number of bytes and of port bits.
pub fn read_pat(alloc: Global, bytes: &[u8], ports: &Ports) -> Result<Patterns, ReadError>
    ensures accepted { IfOk result (λ p. IsPatternText bytes.now ports.now p) }
    ensures fits { IfOk result (λ p. AreFor ports.now p) }
    ensures refused { IfErr result (λ e. IsPatternRefusal bytes.now ports.now e) }
{
    let parsed = written(alloc, bytes, ports)?;
    check(alloc, ports.as_slice(), &parsed)?;
    let made = patterns(alloc, &parsed)?;
    Ok(made)
}
