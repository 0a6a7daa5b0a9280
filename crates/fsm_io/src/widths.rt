// Where widths don't fit.
ghost use Rattle.std.specs.Prelude.{◌≡◌, map};
ghost use Rattle.std.specs.List.{All, flat_map};
ghost use Rattle.vlsi_base.specs.Tree.{view};
ghost use Rattle.source_checks.specs.Lines.{first_line};
ghost use Rattle.source_checks.specs.Operators.{IsShort};
ghost use Rattle.fsm_text.specs.Written.{machine_view, clock_view};
ghost use Rattle.fsm_text.specs.Short.{HasShortExpressions};
ghost use Rattle.fsm_io.specs.Known.{symbols};
ghost use Rattle.fsm_io.specs.Looks.{all_mentions};
ghost use Rattle.fsm_io.specs.Short.{ShortMention};
ghost use Rattle.fsm_io.specs.Widths.{wide_enough, assignment_widths, widths_at, clock_widths, all_widths};
ghost use Rattle.fsm_io.specs.Pieces.{mention_of, named_of};

use crate::known::{Roles, same};
use crate::mentions::Mention;
use fsm_text::{ClockProcess, StateFile};
use source_checks::{
    SymbolTable, Target, condition_fault, differ, found_width, measured, ports_fault, target_fault,
    target_width, value_fault,
};
use vlsi_base::ParsedExpr;

/// At an assignment: what is assigned to another target than the next state is as wide as the target.
fn wide_fault(to_next: bool, a: Option<u128>, b: Option<u128>, line: u32) -> Option<u32>
    ensures { result ≡ first_line (wide_enough to_next a b line) }
{
    if !to_next && differ(a, b) {
        Some(line)
    } else {
        None
    }
}

#[tactic(auto, using(source_checks::proofs::FirstLines::first_line_append))]
fn assignment_fault(
    table: &SymbolTable,
    roles: Roles,
    target: &Target,
    value: &ParsedExpr,
) -> Option<u32>
    requires { IsShort (view value.now) }
    ensures { result ≡ first_line (assignment_widths table.now (named_of roles.entry) target.now (view value.now)) }
{
    let measure = measured(table, value);
    let to_next = same(&target.name, roles.next);
    let wide = target_width(table, target);
    if let Some(line) = wide_fault(to_next, measure.width, wide, target.line) {
        return Some(line);
    }
    match target_fault(table, target) {
        Some(line) => Some(line),
        None => measure.fault,
    }
}

fn fault_at(table: &SymbolTable, roles: Roles, mention: Mention) -> Option<u32>
    requires { ShortMention (mention_of mention) }
    ensures { result ≡ first_line (widths_at table.now (named_of roles.entry) (mention_of mention.entry)) }
{
    match mention {
        Mention::Assertion(e) => value_fault(table, e),
        Mention::Assignment(target, _, e) => assignment_fault(table, roles, target, e),
        Mention::Condition(line, e) => condition_fault(table, line, e),
        Mention::Case(_, _, _) => None,
        Mention::States(_) => None,
    }
}

fn fault_in_mentions(table: &SymbolTable, roles: Roles, mentions: &[Mention]) -> Option<u32>
    requires { All (λ m. ShortMention (mention_of m)) mentions.now }
    ensures { result ≡ first_line (flat_map (widths_at table.now (named_of roles.entry)) (map mention_of mentions.now)) }
{
    for mention in mentions {
        if let Some(line) = fault_at(table, roles, *mention) {
            return Some(line);
        }
    }
    None
}

#[tactic(auto, using(source_checks::proofs::FirstLines::first_line_append))]
fn fault_at_clock(table: &SymbolTable, roles: Roles, process: &ClockProcess) -> Option<u32>
    requires { IsShort (view process.now.condition) }
    ensures { result ≡ first_line (clock_widths table.now (named_of roles.entry) (clock_view process.now)) }
{
    let found = condition_fault(table, process.condition_line, &process.condition);
    if let Some(line) = found {
        return Some(line);
    }
    let target = &process.target;
    let value = found_width(table, process.value.text.as_bytes());
    let wide = found_width(table, target.text.as_bytes());
    wide_fault(
        same(&target.text, roles.next),
        Some(value),
        Some(wide),
        target.line,
    )
}

/// The first line at fault.
#[tactic(auto, using(source_checks::proofs::FirstLines::first_line_append))]
pub fn width_fault(
    table: &SymbolTable,
    roles: Roles,
    file: &StateFile,
    mentions: &[Mention],
) -> Option<u32>
    requires known { table.now ≡ symbols (machine_view file.now) }
    requires mentions { map mention_of mentions.now ≡ all_mentions (machine_view file.now) }
    requires short { HasShortExpressions (machine_view file.now) }
    ensures { result ≡ first_line (all_widths (machine_view file.now) (named_of roles.entry)) }
{
    if let Some(line) = ports_fault(file.entity.ports.as_slice()) {
        return Some(line);
    }
    match fault_in_mentions(table, roles, mentions) {
        Some(line) => Some(line),
        None => fault_at_clock(table, roles, &file.clock),
    }
}
