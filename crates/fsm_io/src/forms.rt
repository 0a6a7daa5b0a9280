// Forms that are left out.
ghost use Rattle.std.specs.Prelude.{◌≡◌, ◌∷◌, [], ◌++◌, ◌||◌, not, false, bytes_eq, map};
ghost use Rattle.std.specs.List.{flat_map};
ghost use Rattle.vlsi_base.specs.Tree.{view, operand_of};
ghost use Rattle.source_checks.specs.Lines.{first_line, in_operands};
ghost use Rattle.source_checks.specs.Symbols.{find};
ghost use Rattle.source_checks.specs.Unsupported.{supply_faults};
ghost use Rattle.source_checks.specs.Widths.{if_not};
ghost use Rattle.fsm_text.specs.Written.{machine_view, clock_view};
ghost use Rattle.fsm_io.specs.Known.{symbols};
ghost use Rattle.fsm_io.specs.Looks.{all_mentions, body_has_case, assigning};
ghost use Rattle.fsm_io.specs.Unsupported.{is_input, may_assign, next_forms, forms_at, clock_forms, clock_load, behind_mentions, all_forms};
ghost use Rattle.fsm_io.specs.Pieces.{mention_of, named_of, may_be_read, is_steady, readable_forms};

use crate::drivers::is_output;
use crate::known::{Roles, same};
use crate::mentions::Mention;
use crate::names::is_bare;
use fsm_text::{ClockProcess, FirstToken, StateFile, StateSignals};
use source_checks::{Role, SymbolTable, Target, literal_fault, ports_form};
use vlsi_base::{NewName, ParsedExpr, Text, is_supply};

/// Which names an expression may read.
#[derive(Clone, Copy)]
pub enum Readable<'a> {
    /// Inputs; a `stable` reads no value.
    Inputs(&'a SymbolTable),
    /// This name alone, by a `stable` too.
    Only(&'a Text),
}

impl Readable<'_> {
    fn has(self, text: &Text) -> bool
        ensures { result ≡ may_be_read self.entry text.now }
    {
        match self {
            Readable::Inputs(table) => match table.find(text.as_bytes()) {
                Some(symbol) => is_input(symbol.role),
                None => true,
            },
            Readable::Only(name) => same(text, name),
        }
    }

    fn fault(self, text: &Text, line: u32) -> Option<u32>
        ensures { result ≡ first_line (if_not (may_be_read self.entry text.now) line) }
    {
        if self.has(text) { None } else { Some(line) }
    }

    fn steady_fault(self, text: &Text, line: u32) -> Option<u32>
        ensures { result ≡ first_line (if_not (not (is_steady self.entry) || may_be_read self.entry text.now) line) }
    {
        match self {
            Readable::Inputs(_) => None,
            Readable::Only(_) => self.fault(text, line),
        }
    }
}

fn is_input(role: Role) -> bool
    ensures { result ≡ is_input role }
{
    match role {
        Role::Input => true,
        Role::Output | Role::Both | Role::Inner | Role::Register => false,
    }
}

/// The first line in an expression at which a name is read that may not be, or a literal has too many bits or none.
#[cycle(forms)]
#[tactic(auto, using(source_checks::proofs::FirstLines::first_line_append))]
fn read_fault(readable: Readable, e: &ParsedExpr) -> Option<u32>
    ensures { result ≡ first_line (readable_forms readable.entry (view e.now)) }
{
    match e {
        ParsedExpr::Bit(_, _) => None,
        ParsedExpr::Literal(_, _, _) => literal_fault(e),
        ParsedExpr::Name(text, line) => readable.fault(text, *line),
        ParsedExpr::Index(text, line, _) => readable.fault(text, *line),
        ParsedExpr::Slice(text, line, _) => readable.fault(text, *line),
        ParsedExpr::Stable(text, line) => readable.steady_fault(text, *line),
        ParsedExpr::Not(_, inner) => read_fault(readable, inner),
        ParsedExpr::Binary(_, _, left, right) => match read_fault(readable, left) {
            Some(line) => Some(line),
            None => read_fault(readable, right),
        },
        ParsedExpr::Chain(_, first, others) => match read_fault(readable, first) {
            Some(line) => Some(line),
            None => read_fault_among(readable, others),
        },
    }
}

#[cycle(forms)]
#[tactic(auto, using(source_checks::proofs::FirstLines::first_line_append))]
fn read_fault_among(readable: Readable, others: &[(u32, ParsedExpr)]) -> Option<u32>
    ensures { result ≡ first_line (in_operands (readable_forms readable.entry) (map operand_of others.now)) }
{
    for (_, e) in others {
        if let Some(line) = read_fault(readable, e) {
            return Some(line);
        }
    }
    None
}

fn may_assign(table: &SymbolTable, target: &Target) -> bool
    ensures { result ≡ may_assign (find table.now target.now.name) }
{
    match table.find(target.name.as_bytes()) {
        Some(symbol) => is_output(symbol.role),
        None => true,
    }
}

/// One bare name is assigned to the next state.
fn next_fault(first: FirstToken, value: &ParsedExpr) -> Option<u32>
    ensures { result ≡ first_line (next_forms first (view value.now)) }
{
    if is_bare(first, value) {
        None
    } else {
        Some(first.line)
    }
}

#[tactic(auto, using(source_checks::proofs::FirstLines::first_line_append))]
fn assignment_fault(
    table: &SymbolTable,
    roles: Roles,
    target: &Target,
    first: FirstToken,
    value: &ParsedExpr,
) -> Option<u32>
    ensures { result ≡ first_line (forms_at table.now (named_of roles.entry) (assigning target.now first (view value.now))) }
{
    if same(&target.name, roles.next) {
        return next_fault(first, value);
    }
    if may_assign(table, target) {
        read_fault(Readable::Inputs(table), value)
    } else {
        Some(target.line)
    }
}

/// There is one case alone, over the current state.
fn case_fault(roles: Roles, seen: bool, line: u32, name: &NewName) -> Option<u32>
    ensures { result ≡ first_line (if_not (not seen) line ++ if_not (bytes_eq name.now.text roles.entry.current.now) name.now.line) }
{
    if seen {
        return Some(line);
    }
    if same(&name.text, roles.current) {
        None
    } else {
        Some(name.line)
    }
}

fn fault_at(table: &SymbolTable, roles: Roles, mention: Mention) -> Option<u32>
    ensures { result ≡ first_line (forms_at table.now (named_of roles.entry) (mention_of mention.entry)) }
{
    match mention {
        Mention::Assertion(e) => read_fault(Readable::Inputs(table), e),
        Mention::Assignment(target, first, e) => assignment_fault(table, roles, target, first, e),
        Mention::Condition(_, e) => read_fault(Readable::Inputs(table), e),
        Mention::Case(seen, line, name) => case_fault(roles, seen, line, name),
        Mention::States(_) => None,
    }
}

fn fault_in_mentions(table: &SymbolTable, roles: Roles, mentions: &[Mention]) -> Option<u32>
    ensures { result ≡ first_line (flat_map (forms_at table.now (named_of roles.entry)) (map mention_of mentions.now)) }
{
    for mention in mentions {
        if let Some(line) = fault_at(table, roles, *mention) {
            return Some(line);
        }
    }
    None
}

/// A state signal that is called as a supply is.
fn signals_fault(signals: &StateSignals) -> Option<u32>
    ensures { result ≡ first_line (supply_faults false (signals.now.first ∷ signals.now.second ∷ [])) }
{
    if is_supply(signals.first.text.as_bytes()) {
        Some(signals.first.line)
    } else if is_supply(signals.second.text.as_bytes()) {
        Some(signals.second.line)
    } else {
        None
    }
}

/// The process at the clock assigns the next state to the current one.
fn load_fault(roles: Roles, process: &ClockProcess) -> Option<u32>
    ensures { result ≡ first_line (clock_load (named_of roles.entry) (clock_view process.now)) }
{
    if !same(&process.target.text, roles.current) {
        return Some(process.target.line);
    }
    if same(&process.value.text, roles.next) {
        None
    } else {
        Some(process.value.line)
    }
}

/// In the process at the clock, which names the clock and the two state signals alone.
#[tactic(auto, using(source_checks::proofs::FirstLines::first_line_append))]
fn fault_at_clock(roles: Roles, process: &ClockProcess) -> Option<u32>
    ensures { result ≡ first_line (clock_forms (named_of roles.entry) (clock_view process.now)) }
{
    match read_fault(Readable::Only(roles.clock), &process.condition) {
        Some(line) => Some(line),
        None => load_fault(roles, process),
    }
}

/// Behind the statements: their end where no case stands among them, and the process at the clock.
#[tactic(auto, using(source_checks::proofs::FirstLines::first_line_append))]
fn fault_behind(roles: Roles, file: &StateFile, has_case: bool) -> Option<u32>
    requires { has_case ≡ body_has_case (machine_view file.now).step.body }
    ensures { result ≡ first_line (behind_mentions (machine_view file.now) (named_of roles.entry)) }
{
    if has_case {
        fault_at_clock(roles, &file.clock)
    } else {
        Some(file.step.end_line)
    }
}

/// The first line at fault; `has_case` says whether there is a case.
#[tactic(auto, using(source_checks::proofs::FirstLines::first_line_append))]
pub fn unsupported(
    table: &SymbolTable,
    roles: Roles,
    file: &StateFile,
    mentions: &[Mention],
    has_case: bool,
) -> Option<u32>
    requires known { table.now ≡ symbols (machine_view file.now) }
    requires mentions { map mention_of mentions.now ≡ all_mentions (machine_view file.now) }
    requires case { has_case ≡ body_has_case (machine_view file.now).step.body }
    ensures { result ≡ first_line (all_forms (machine_view file.now) (named_of roles.entry)) }
{
    if let Some(line) = ports_form(file.entity.ports.as_slice()) {
        return Some(line);
    }
    if let Some(line) = signals_fault(&file.signals) {
        return Some(line);
    }
    match fault_in_mentions(table, roles, mentions) {
        Some(line) => Some(line),
        None => fault_behind(roles, file, has_case),
    }
}
