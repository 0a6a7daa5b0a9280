// Names that should be states and aren't, or that a case lists twice.
ghost use Rattle.std.specs.Prelude.{◌≡◌, ◌≤◌, ◌++◌, [], None, map, length, IfOk};
ghost use Rattle.std.specs.Option.{option_map};
ghost use Rattle.vlsi_base.specs.Tree.{view};
ghost use Rattle.source_checks.specs.Uses.{use_of as place_use};
ghost use Rattle.fsm_io.specs.Known.{texts};
ghost use Rattle.fsm_io.specs.Elaboration.{state_number};
ghost use Rattle.fsm_io.specs.States.{is_one_of, bad_names, bad_value, bad_at, listed_after, bad_states};
ghost use Rattle.fsm_io.specs.Pieces.{mention_of, first_use, symbol_texts};
ghost use Rattle.fsm_io.specs.Verdict.{most_numbered};

use crate::known::{Roles, same, with_name, with_names};
use crate::mentions::Mention;
use crate::names::plain_name;
use source_checks::{Place, SymbolTable};
use std::alloc::{AllocError, Global};
use vlsi_base::{NewName, ParsedExpr, Text};

/// The states by their names, in the order of their declaration.
pub fn state_table(alloc: Global, states: &[NewName]) -> Result<SymbolTable, AllocError>
    ensures { IfOk result (λ made. symbol_texts made ≡ texts states.now) }
{
    let made = with_names(alloc, SymbolTable::empty(alloc), 0, states)?;
    Ok(made)
}

/// The place of a state; for another name, how many states there are.
#[tactic(auto, using(crate::proofs::StateNames::number_some, crate::proofs::StateNames::number_none))]
fn place_of(states: &SymbolTable, text: &Text) -> usize
    ensures { result ≡ state_number (symbol_texts states.now) text.now }
{
    match states.place(text.as_bytes()) {
        Some(place) => place,
        None => states.as_slice().len(),
    }
}

/// The number of a state; for another name, how many states there are.
pub fn state_number(states: &SymbolTable, text: &Text) -> u32
    requires { length states.now ≤ most_numbered }
    ensures { result ≡ state_number (symbol_texts states.now) text.now }
{
    place_of(states, text) as u32
}

fn is_listed(names: &SymbolTable, text: &Text) -> bool
    ensures { result ≡ is_one_of (symbol_texts names.now) text.now }
{
    match names.place(text.as_bytes()) {
        Some(_) => true,
        None => false,
    }
}

/// What was listed with these names behind it, and the first of them that is no state or was listed before, if there is one.
fn list_names<'a>(
    alloc: Global,
    states: &SymbolTable,
    listed: SymbolTable,
    names: &'a [NewName],
) -> Result<(SymbolTable, Option<Place<'a>>), AllocError>
    ensures found { IfOk result (λ made. option_map place_use made.1 ≡ first_use (bad_names (symbol_texts states.now) (symbol_texts listed) names.now)) }
    ensures after { IfOk result (λ made. made.1 ≡ None → symbol_texts made.0 ≡ symbol_texts listed ++ texts names.now) }
{
    let mut made = listed;
    for name in names {
        if !is_listed(states, &name.text) || is_listed(&made, &name.text) {
            let place = Place {
                text: &name.text,
                line: name.line,
            };
            return Ok((made, Some(place)));
        }
        made = with_name(alloc, made, 0, name)?;
    }
    Ok((made, None))
}

/// What is assigned to the next state, if it is one name and no state.
fn bad_value<'a>(states: &SymbolTable, value: &'a ParsedExpr) -> Option<Place<'a>>
    ensures { option_map place_use result ≡ first_use (bad_value (symbol_texts states.now) (view value.now)) }
{
    match plain_name(value) {
        Some(place) => {
            if is_listed(states, place.text) {
                None
            } else {
                Some(place)
            }
        }
        None => None,
    }
}

/// What was listed behind this place, and the first name at fault there, if there is one.
fn bad_at<'a>(
    alloc: Global,
    states: &SymbolTable,
    roles: Roles,
    listed: SymbolTable,
    mention: Mention<'a>,
) -> Result<(SymbolTable, Option<Place<'a>>), AllocError>
    ensures found { IfOk result (λ made. option_map place_use made.1
        ≡ first_use (bad_at (symbol_texts states.now) roles.entry.next.now (symbol_texts listed) (mention_of mention.entry))) }
    ensures after { IfOk result (λ made. made.1 ≡ None → symbol_texts made.0 ≡ listed_after (symbol_texts listed) (mention_of mention.entry)) }
{
    match mention {
        Mention::Assignment(target, _, value) => {
            if same(&target.name, roles.next) {
                Ok((listed, bad_value(states, value)))
            } else {
                Ok((listed, None))
            }
        }
        Mention::States(names) => list_names(alloc, states, listed, names),
        Mention::Assertion(_) => Ok((listed, None)),
        Mention::Condition(_, _) => Ok((listed, None)),
        Mention::Case(_, _, _) => Ok((listed, None)),
    }
}

/// The first name that should be a state and isn't, or that a case lists a second time. Takes memory for each listed state.
pub fn bad_state<'a>(
    alloc: Global,
    declared: &[NewName],
    roles: Roles,
    mentions: &[Mention<'a>],
) -> Result<Option<Place<'a>>, AllocError>
    ensures { IfOk result (λ found. option_map place_use found
        ≡ first_use (bad_states (texts declared.now) roles.entry.next.now [] (map mention_of mentions.now))) }
{
    let states = state_table(alloc, declared)?;
    let mut listed = SymbolTable::empty(alloc);
    for mention in mentions {
        let (after, found) = bad_at(alloc, &states, roles, listed, *mention)?;
        if let Some(place) = found {
            return Ok(Some(place));
        }
        listed = after;
    }
    Ok(None)
}
