// Names that aren't declared.
ghost use Rattle.std.specs.Prelude.{◌≡◌, ◌∷◌, [], map};
ghost use Rattle.std.specs.List.{flat_map};
ghost use Rattle.std.specs.Option.{option_map};
ghost use Rattle.vlsi_base.specs.Tree.{view};
ghost use Rattle.source_checks.specs.Places.{first_unknown};
ghost use Rattle.source_checks.specs.Uses.{use_of as place_use};
ghost use Rattle.fsm_text.specs.Written.{machine_view, clock_view};
ghost use Rattle.fsm_io.specs.Looks.{assigning, uses_at, value_uses, all_uses, clock_uses, use_of, all_mentions};
ghost use Rattle.fsm_io.specs.Pieces.{mention_of, named_of};

use crate::known::{Roles, same};
use crate::mentions::Mention;
use crate::names::is_bare;
use fsm_text::{ClockProcess, FirstToken, StateFile};
use source_checks::{Place, SymbolTable, Target, unknown_name, unknown_read};
use vlsi_base::{NewName, ParsedExpr};

fn unknown_among<'a>(table: &SymbolTable, names: &'a [NewName]) -> Option<Place<'a>>
    ensures { option_map place_use result ≡ first_unknown table.now (map use_of names.now) }
{
    for name in names {
        if let Some(place) = unknown_name(table, &name.text, name.line) {
            return Some(place);
        }
    }
    None
}

/// In what is assigned: a bare name that is assigned to the next state is looked at with the states.
#[tactic(auto, using(source_checks::proofs::Unknowns::first_unknown_append))]
fn unknown_in_value<'a>(
    table: &SymbolTable,
    to_next: bool,
    first: FirstToken,
    value: &'a ParsedExpr,
) -> Option<Place<'a>>
    ensures { option_map place_use result ≡ first_unknown table.now (value_uses to_next first (view value.now)) }
{
    if to_next && is_bare(first, value) {
        None
    } else {
        unknown_read(table, value)
    }
}

#[tactic(auto, using(source_checks::proofs::Unknowns::first_unknown_append))]
fn unknown_in_assignment<'a>(
    table: &SymbolTable,
    roles: Roles,
    target: &'a Target,
    first: FirstToken,
    value: &'a ParsedExpr,
) -> Option<Place<'a>>
    ensures { option_map place_use result ≡ first_unknown table.now (uses_at (named_of roles.entry) (assigning target.now first (view value.now))) }
{
    match unknown_name(table, &target.name, target.line) {
        Some(place) => Some(place),
        None => unknown_in_value(table, same(&target.name, roles.next), first, value),
    }
}

#[tactic(auto, using(source_checks::proofs::Unknowns::first_unknown_append))]
fn unknown_at<'a>(table: &SymbolTable, roles: Roles, mention: Mention<'a>) -> Option<Place<'a>>
    ensures { option_map place_use result ≡ first_unknown table.now (uses_at (named_of roles.entry) (mention_of mention.entry)) }
{
    match mention {
        Mention::Assertion(e) => unknown_read(table, e),
        Mention::Assignment(target, first, e) => {
            unknown_in_assignment(table, roles, target, first, e)
        }
        Mention::Condition(_, e) => unknown_read(table, e),
        Mention::Case(_, _, name) => unknown_name(table, &name.text, name.line),
        Mention::States(_) => None,
    }
}

fn unknown_in_mentions<'a>(
    table: &SymbolTable,
    roles: Roles,
    mentions: &[Mention<'a>],
) -> Option<Place<'a>>
    ensures { option_map place_use result ≡ first_unknown table.now (flat_map (uses_at (named_of roles.entry)) (map mention_of mentions.now)) }
{
    for mention in mentions {
        if let Some(place) = unknown_at(table, roles, *mention) {
            return Some(place);
        }
    }
    None
}

#[tactic(auto, using(source_checks::proofs::Unknowns::first_unknown_append))]
fn unknown_in_load<'a>(table: &SymbolTable, process: &'a ClockProcess) -> Option<Place<'a>>
    ensures { option_map place_use result ≡ first_unknown table.now (use_of process.now.target ∷ use_of process.now.value ∷ []) }
{
    let target = &process.target;
    match unknown_name(table, &target.text, target.line) {
        Some(place) => Some(place),
        None => unknown_name(table, &process.value.text, process.value.line),
    }
}

#[tactic(auto, using(source_checks::proofs::Unknowns::first_unknown_append))]
fn unknown_in_clock<'a>(table: &SymbolTable, process: &'a ClockProcess) -> Option<Place<'a>>
    ensures { option_map place_use result ≡ first_unknown table.now (clock_uses (clock_view process.now)) }
{
    if let Some(place) = unknown_among(table, process.sensitivity.as_slice()) {
        return Some(place);
    }
    match unknown_read(table, &process.condition) {
        Some(place) => Some(place),
        None => unknown_in_load(table, process),
    }
}

/// The first name that isn't declared.
#[tactic(auto, using(source_checks::proofs::Unknowns::first_unknown_append))]
pub fn unknown<'a>(
    table: &SymbolTable,
    roles: Roles,
    file: &'a StateFile,
    mentions: &[Mention<'a>],
) -> Option<Place<'a>>
    requires { map mention_of mentions.now ≡ all_mentions (machine_view file.now) }
    ensures { option_map place_use result ≡ first_unknown table.now (all_uses (machine_view file.now) (named_of roles.entry)) }
{
    if let Some(place) = unknown_among(table, file.step.sensitivity.as_slice()) {
        return Some(place);
    }
    match unknown_in_mentions(table, roles, mentions) {
        Some(place) => Some(place),
        None => unknown_in_clock(table, &file.clock),
    }
}
