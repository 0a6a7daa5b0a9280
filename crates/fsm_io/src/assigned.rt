// Targets that some state leaves without an assignment on some path of ifs.
ghost use Rattle.std.specs.Prelude.{◌≡◌, ◌≤◌, filter, map, not, length, IfOk};
ghost use Rattle.std.specs.Option.{option_map};
ghost use Rattle.bool_expr.specs.Support.{among};
ghost use Rattle.source_checks.specs.Codes.{name_at, least_code};
ghost use Rattle.fsm_machine.specs.Assigned.{sure, sure_parts, sure_branches, sets_output};
ghost use Rattle.fsm_code.specs.View.{assignment_view, body_view, parts_view, branches_view};
ghost use Rattle.fsm_text.specs.Written.{machine_view};
ghost use Rattle.fsm_io.specs.Known.{symbols};
ghost use Rattle.fsm_io.specs.Assigned.{always, left_out_at, left_out_of};
ghost use Rattle.fsm_io.specs.Pieces.{sets_of, named_of, bit_code};
ghost use Rattle.fsm_io.specs.Verdict.{most_numbered};
ghost use Rattle.fsm_io.specs.Drivers.{first_of};

use crate::codes::{bits_in, least_with, name_with};
use crate::drivers::is_output;
use crate::known::Roles;
use fsm_code::{Assignment, Branches, Parts, Statements};
use fsm_text::StateFile;
use source_checks::{NameFault, Symbol, SymbolTable};
use std::alloc::{AllocError, Global};
use vlsi_base::{Name, Text};

/// What has to be assigned: the next state, or a bit of an output.
#[derive(Clone, Copy)]
pub enum Sought<'a> {
    Next,
    Bit(&'a Text, Option<u32>),
}

impl Sought<'_> {
    /// Whether the assignment sets it.
    fn is_set(self, assignment: &Assignment) -> bool
        ensures { result ≡ sets_of self.entry (assignment_view assignment.now) }
    {
        match self {
            Sought::Next => match assignment {
                Assignment::Next(_) => true,
                Assignment::Output(_, _) => false,
            },
            Sought::Bit(text, bit) => match assignment {
                Assignment::Next(_) => false,
                Assignment::Output(name, _) => {
                    name.bit == bit && name.text.as_bytes() == text.as_bytes()
                }
            },
        }
    }
}

/// Whether every path of ifs through the statements assigns it, in this state.
#[cycle(sure)]
fn is_sure(sought: Sought, state: u32, body: &Statements) -> bool
    ensures { result ≡ sure (sets_of sought.entry) state (body_view body.now) }
{
    let mut rest = body;
    loop {
        match rest {
            Statements::Finish => return false,
            Statements::Assign(assignment, after) => {
                if sought.is_set(assignment) {
                    return true;
                }
                rest = after;
            }
            Statements::Choose(parts, after) => {
                if is_sure_in_parts(sought, state, parts) {
                    return true;
                }
                rest = after;
            }
            Statements::Select(branches, after) => {
                if is_sure_in_branches(sought, state, branches) {
                    return true;
                }
                rest = after;
            }
        }
    }
}

#[cycle(sure)]
fn is_sure_in_parts(sought: Sought, state: u32, parts: &Parts) -> bool
    ensures { result ≡ sure_parts (sets_of sought.entry) state (parts_view parts.now) }
{
    let mut rest = parts;
    loop {
        match rest {
            Parts::Only(_, _) => return false,
            Parts::Either(_, part, last) => {
                return is_sure(sought, state, part) && is_sure(sought, state, last);
            }
            Parts::Further(_, part, more) => {
                if !is_sure(sought, state, part) {
                    return false;
                }
                rest = more;
            }
        }
    }
}

fn is_listed(states: &[u32], state: u32) -> bool
    ensures { result ≡ among state states.now }
{
    for listed in states {
        if *listed == state {
            return true;
        }
    }
    false
}

#[cycle(sure)]
fn is_sure_in_branches(sought: Sought, state: u32, branches: &Branches) -> bool
    ensures { result ≡ sure_branches (sets_of sought.entry) state (branches_view branches.now) }
{
    let mut rest = branches;
    loop {
        match rest {
            Branches::Closed => return false,
            Branches::Others(part) => return is_sure(sought, state, part),
            Branches::Listed(states, part, more) => {
                if is_listed(states, state) {
                    return is_sure(sought, state, part);
                }
                rest = more;
            }
        }
    }
}

/// Whether each of so many states assigns it on every path.
fn is_always(sought: Sought, count: u32, body: &Statements) -> bool
    ensures { result ≡ always count (sets_of sought.entry) (body_view body.now) }
{
    for state in 0..count {
        if !is_sure(sought, state, body) {
            return false;
        }
    }
    true
}

/// The least of these bits of a symbol that isn't.
fn least_bit(
    symbol: &Symbol,
    count: u32,
    body: &Statements,
    bits: &[Option<u32>],
) -> Option<Option<u32>>
    ensures { option_map bit_code result ≡ least_code
        (filter (λ c. not (always count (sets_output (name_at symbol.now.text c)) (body_view body.now))) (map bit_code bits.now)) }
{
    let mut least: Option<Option<u32>> = None;
    for bit in bits {
        let passes = is_always(Sought::Bit(&symbol.text, *bit), count, body);
        least = least_with(passes, *bit, least);
    }
    least
}

/// The least of an output's bits that isn't.
fn left_out_at(
    alloc: Global,
    symbol: &Symbol,
    count: u32,
    body: &Statements,
) -> Result<Option<NameFault>, AllocError>
    ensures { IfOk result (λ found. found ≡ left_out_at count (body_view body.now) symbol.now) }
{
    if !is_output(symbol.role) {
        return Ok(None);
    }
    let bits = bits_in(alloc, symbol.range)?;
    let least = least_bit(symbol, count, body, &bits);
    let found = name_with(alloc, &symbol.text, least)?;
    match found {
        Some(name) => Ok(Some(NameFault {
            line: symbol.line,
            name,
        })),
        None => Ok(None),
    }
}

fn first_left_out(
    alloc: Global,
    symbols: &[Symbol],
    count: u32,
    body: &Statements,
) -> Result<Option<NameFault>, AllocError>
    ensures { IfOk result (λ found. found ≡ first_of (left_out_at count (body_view body.now)) symbols.now) }
{
    for symbol in symbols {
        let found = left_out_at(alloc, symbol, count, body)?;
        if let Some(fault) = found {
            return Ok(Some(fault));
        }
    }
    Ok(None)
}

/// How many states there are.
fn state_count(file: &StateFile) -> u32
    requires { length (machine_view file.now).states.states ≤ most_numbered }
    ensures { result ≡ length (machine_view file.now).states.states }
{
    file.states.states.as_slice().len() as u32
}

/// The first output that some state doesn't assign on every path, with its least such bit, or else the next state. Takes time for
/// each output bit by the statements that each state walks.
pub fn left_out(
    alloc: Global,
    table: &SymbolTable,
    roles: Roles,
    file: &StateFile,
    body: &Statements,
) -> Result<Option<NameFault>, AllocError>
    requires known { table.now ≡ symbols (machine_view file.now) }
    requires few { length (machine_view file.now).states.states ≤ most_numbered }
    ensures { IfOk result (λ found. found ≡ left_out_of (machine_view file.now) (named_of roles.entry) (body_view body.now)) }
{
    let count = state_count(file);
    let found = first_left_out(alloc, table.as_slice(), count, body)?;
    if let Some(fault) = found {
        return Ok(Some(fault));
    }
    if is_always(Sought::Next, count, body) {
        return Ok(None);
    }
    Ok(Some(NameFault {
        line: file.signals.line,
        name: Name::scalar(roles.next.copy(alloc)?),
    }))
}
