// Where the clock stands that it mustn't.
ghost use Rattle.std.specs.Prelude.{◌≡◌, map, IfOk};
ghost use Rattle.std.specs.List.{flat_map};
ghost use Rattle.vlsi_base.specs.Tree.{view};
ghost use Rattle.source_checks.specs.Lines.{first_line};
ghost use Rattle.fsm_text.specs.Written.{machine_view};
ghost use Rattle.fsm_io.specs.Known.{symbols};
ghost use Rattle.fsm_io.specs.Looks.{all_mentions};
ghost use Rattle.fsm_io.specs.Clock.{is_edge, clock_reads_at, all_clock_reads};
ghost use Rattle.fsm_io.specs.Pieces.{mention_of, named_of};

use crate::known::{Roles, same};
use crate::mentions::Mention;
use fsm_text::StateFile;
use source_checks::SymbolTable;
use source_clock::{clock_line, clock_of, conditions};
use std::alloc::{AllocError, Global};
use vlsi_base::{ParsedExpr, Text};

/// Whether the expression is the rise of this clock, without a further condition. Takes memory for its parts.
fn is_edge(
    alloc: Global,
    table: &SymbolTable,
    clock: &Text,
    e: &ParsedExpr,
) -> Result<bool, AllocError>
    ensures { IfOk result (λ edge. edge ≡ is_edge table.now clock.now (view e.now)) }
{
    let found = clock_of(alloc, table, e)?;
    match found {
        Some(text) => {
            let further = conditions(alloc, e, text.as_bytes())?;
            Ok(same(text, clock) && further.is_empty())
        }
        None => Ok(false),
    }
}

fn fault_at(roles: Roles, mention: Mention) -> Option<u32>
    ensures { result ≡ first_line (clock_reads_at (named_of roles.entry) (mention_of mention.entry)) }
{
    match mention {
        Mention::Assertion(e) => clock_line(Some(roles.clock), e),
        Mention::Assignment(target, _, e) => {
            if same(&target.name, roles.next) {
                None
            } else {
                clock_line(Some(roles.clock), e)
            }
        }
        Mention::Condition(_, e) => clock_line(Some(roles.clock), e),
        Mention::Case(_, _, _) => None,
        Mention::States(_) => None,
    }
}

fn fault_in_mentions(roles: Roles, mentions: &[Mention]) -> Option<u32>
    ensures { result ≡ first_line (flat_map (clock_reads_at (named_of roles.entry)) (map mention_of mentions.now)) }
{
    for mention in mentions {
        if let Some(line) = fault_at(roles, *mention) {
            return Some(line);
        }
    }
    None
}

/// The first line at fault.
#[tactic(auto, using(source_checks::proofs::FirstLines::first_line_append))]
pub fn clock_fault(
    alloc: Global,
    table: &SymbolTable,
    roles: Roles,
    file: &StateFile,
    mentions: &[Mention],
) -> Result<Option<u32>, AllocError>
    requires known { table.now ≡ symbols (machine_view file.now) }
    requires mentions { map mention_of mentions.now ≡ all_mentions (machine_view file.now) }
    ensures { IfOk result (λ line. line ≡ first_line (all_clock_reads (machine_view file.now) (named_of roles.entry))) }
{
    if let Some(line) = fault_in_mentions(roles, mentions) {
        return Ok(Some(line));
    }
    let process = &file.clock;
    let edge = is_edge(alloc, table, roles.clock, &process.condition)?;
    if edge {
        Ok(None)
    } else {
        Ok(Some(process.condition_line))
    }
}
