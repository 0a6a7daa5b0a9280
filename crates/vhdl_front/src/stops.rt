// What a reader answers where it stops.
ghost use Rattle.std.specs.Prelude.{◌≡◌, ◌+◌};
ghost use Rattle.vhdl_front.specs.Front.{line_at, line_left, breach_error, reason_error, OrMemory, Becomes};

use grammar_theory::{Breach, CHAIN, DEPTH, Reason, Stop};
use std::alloc::Global;
use vhdl_token::PlacedToken;
use vlsi_base::{FaultKind, InputFault, Limit, LimitKind, Name, Names, ReadError, Text};

/// The line of the token from which on so many are left; the end stands on the last line.
pub fn line_of(last_line: u32, tokens: &[PlacedToken], left: usize) -> u32
    ensures { result ≡ line_left last_line tokens.now left }
{
    let rest = &tokens[tokens.len().saturating_sub(left)..];
    line_of_next(last_line, rest)
}

fn line_of_next(last_line: u32, rest: &[PlacedToken]) -> u32
    ensures { result ≡ line_at last_line rest.now }
{
    match rest.first() {
        Some(token) => token.line,
        None => last_line,
    }
}

fn twice(alloc: Global, line: u32, text: Text) -> ReadError
    ensures { OrMemory (breach_error line (Breach.Twice line text)) result }
{
    let mut names = Vec::new(alloc);
    match names.push(Name::scalar(text)) {
        Ok(()) => ReadError::Input(InputFault {
            line,
            kind: FaultKind::Twice,
            names: Names::new(names),
        }),
        Err(_) => ReadError::Memory,
    }
}

/// A refusal for syntax. Takes no memory.
fn syntax(alloc: Global, line: u32) -> ReadError
    ensures { result ≡ reason_error line Reason.Syntax }
{
    ReadError::Input(InputFault {
        line,
        kind: FaultKind::Syntax,
        names: Names::new(Vec::new(alloc)),
    })
}

fn limit(which: LimitKind, reached: u64) -> ReadError
    ensures { result ≡ ReadError.Limit (record { which = which; reached = reached }) }
{
    ReadError::Limit(Limit { which, reached })
}

fn breach_fault(alloc: Global, line: u32, breach: Breach) -> ReadError
    ensures { OrMemory (breach_error line breach) result }
{
    match breach {
        Breach::Twice(begins, name) => twice(alloc, begins, name),
        Breach::Depth => limit(LimitKind::Depth, u64::from(DEPTH) + 1),
        Breach::Bits(reached) => limit(LimitKind::Bits, reached),
        Breach::Chain => limit(LimitKind::Chain, u64::from(CHAIN) + 1),
        Breach::Spelling => syntax(alloc, line),
    }
}

/// What a stop among these tokens of a text with this last line is answered by.
pub fn stop_error(alloc: Global, last_line: u32, tokens: &[PlacedToken], stop: Stop) -> ReadError
    ensures { Becomes last_line tokens.now stop result }
{
    match stop {
        Stop::Memory => ReadError::Memory,
        Stop::Refused(refusal) => {
            let line = line_of(last_line, tokens, refusal.left);
            match refusal.reason {
                Reason::Syntax => syntax(alloc, line),
                Reason::Breach(breach) => breach_fault(alloc, line, breach),
            }
        }
    }
}
