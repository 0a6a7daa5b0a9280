// The state machine that a text describes, or why it is rejected.
ghost use Rattle.std.specs.Prelude.{◌≡◌, ◌<◌, ◌≤◌, ◌^◌, [], map, length, None, IfOk, IfErr, MatchOption};
ghost use Rattle.std.specs.List.Sorted.{IsPermutation};
ghost use Rattle.machine_core.specs.Checked.{AreInOrder};
ghost use Rattle.machine_core.specs.Machine.{names_of};
ghost use Rattle.source_checks.specs.Checks.{if_use, if_line, if_name, most_ports, first_repeated};
ghost use Rattle.source_checks.specs.Places.{first_unknown};
ghost use Rattle.source_checks.specs.Elaboration.{port_bits};
ghost use Rattle.source_checks.specs.Symbols.{scalar, all_names};
ghost use Rattle.fsm_code.specs.View.{body_view};
ghost use Rattle.fsm_text.specs.Written.{machine_view};
ghost use Rattle.fsm_text.specs.Short.{HasShortExpressions};
ghost use Rattle.fsm_io.specs.Known.{symbols};
ghost use Rattle.fsm_io.specs.Looks.{all_uses};
ghost use Rattle.fsm_io.specs.Listed.{HasStates};
ghost use Rattle.fsm_io.specs.Widths.{all_widths};
ghost use Rattle.fsm_io.specs.Drivers.{first_unassigned};
ghost use Rattle.fsm_io.specs.Unsupported.{all_forms};
ghost use Rattle.fsm_io.specs.Clock.{all_clock_reads};
ghost use Rattle.fsm_io.specs.States.{all_bad_states};
ghost use Rattle.fsm_io.specs.Assigned.{left_out_of};
ghost use Rattle.fsm_io.specs.Checks.{most_states, ports_count, PassesLimit, if_state};
ghost use Rattle.fsm_io.specs.Elaboration.{IsMachineOf};
ghost use Rattle.fsm_io.specs.Pieces.{named_of, tree_of, roles_of, HasRoles, Suits, names_fault, forms_fault, states_fault, early_fault, body_over, PassesBehind, IsMadeBehind, IsRefusedBehind};
ghost use Rattle.fsm_io.specs.Verdict.{IsPassed, IsRefusedOrMemory, most_numbered};

use crate::assigned::left_out;
use crate::bits::Frame;
use crate::clock::clock_fault;
use crate::drivers::undriven;
use crate::forms::unsupported;
use crate::known::{Roles, named_roles, symbol_table};
use crate::mentions::{Mention, mentions};
use crate::states::{bad_state, state_table};
use crate::uses::unknown;
use crate::widths::width_fault;
use fsm_code::Statements;
use fsm_core::StateMachine;
use fsm_text::StateFile;
use source_bits::Numbers;
use source_checks::{SymbolTable, repeated};
use std::alloc::{AllocError, Global};
use vlsi_base::{
    FaultKind, Limit, LimitKind, Name, Names, NewName, Port, Ports, Pragma, ReadError,
};
use vlsi_model::{
    fault, line_fault, name_fault, ports_in_file_order, sorted_ports, text_fault, var_numbers,
};

/// The most port bits that a state machine may have.
const MOST_PORTS: usize = 4096;

/// The most states that a state machine may have.
const MOST_STATES: usize = 256;

/// A text on its way through the checks: what is declared in it, what its pragmas name, and what stands in its statements.
#[derive(Drop)]
pub struct Checking<'a> {
    alloc: Global,
    file: &'a StateFile,
    roles: Roles<'a>,
    numbers: &'a Numbers,
    mentions: &'a [Mention<'a>],
    has_case: bool,
}

impl Checking<'_> {
    /// The first name that isn't declared.
    fn unknown_fault(&self) -> Result<Option<ReadError>, AllocError>
        requires { Suits self.now }
        ensures { IfOk result (λ e. e ≡ if_use (first_unknown (symbols (tree_of self.now)) (all_uses (tree_of self.now) (roles_of self.now))) None) }
    {
        match unknown(self.numbers.table(), self.roles, self.file, self.mentions) {
            Some(place) => {
                let e = text_fault(self.alloc, FaultKind::Unknown, place.line, place.text)?;
                Ok(Some(e))
            }
            None => Ok(None),
        }
    }

    /// The first width that doesn't fit.
    fn widths_fault(&self) -> Option<ReadError>
        requires { Suits self.now }
        ensures { result ≡ if_line FaultKind.Width (all_widths (tree_of self.now) (roles_of self.now)) None }
    {
        let line = width_fault(self.numbers.table(), self.roles, self.file, self.mentions);
        line_fault(self.alloc, FaultKind::Width, line)
    }

    /// The first name that isn't declared, or else the first width that doesn't fit.
    fn names_fault(&self) -> Result<Option<ReadError>, AllocError>
        requires { Suits self.now }
        ensures { IfOk result (λ e. e ≡ names_fault (tree_of self.now) (roles_of self.now)) }
    {
        let found = self.unknown_fault()?;
        match found {
            Some(e) => Ok(Some(e)),
            None => Ok(self.widths_fault()),
        }
    }

    /// The first output that nothing assigns.
    fn undriven_fault(&self) -> Result<Option<ReadError>, AllocError>
        requires { Suits self.now }
        ensures { IfOk result (λ e. e ≡ if_name FaultKind.Undriven (first_unassigned (tree_of self.now)) None) }
    {
        let found = undriven(self.alloc, self.numbers, self.file, self.mentions)?;
        match found {
            Some(f) => {
                let e = name_fault(self.alloc, FaultKind::Undriven, f.line, f.name)?;
                Ok(Some(e))
            }
            None => Ok(None),
        }
    }

    /// The first form that is left out.
    fn left_out_forms(&self) -> Option<ReadError>
        requires { Suits self.now }
        ensures { result ≡ if_line FaultKind.Unsupported (all_forms (tree_of self.now) (roles_of self.now)) None }
    {
        let line = unsupported(
            self.numbers.table(),
            self.roles,
            self.file,
            self.mentions,
            self.has_case,
        );
        line_fault(self.alloc, FaultKind::Unsupported, line)
    }

    /// The first output that nothing assigns, or else the first form that is left out.
    fn forms_fault(&self) -> Result<Option<ReadError>, AllocError>
        requires { Suits self.now }
        ensures { IfOk result (λ e. e ≡ forms_fault (tree_of self.now) (roles_of self.now)) }
    {
        let found = self.undriven_fault()?;
        match found {
            Some(e) => Ok(Some(e)),
            None => Ok(self.left_out_forms()),
        }
    }

    /// The first place where the clock mustn't stand.
    fn clock_fault(&self) -> Result<Option<ReadError>, AllocError>
        requires { Suits self.now }
        ensures { IfOk result (λ e. e ≡ if_line FaultKind.ClockUse (all_clock_reads (tree_of self.now) (roles_of self.now)) None) }
    {
        let table = self.numbers.table();
        let line = clock_fault(self.alloc, table, self.roles, self.file, self.mentions)?;
        Ok(line_fault(self.alloc, FaultKind::ClockUse, line))
    }

    /// The first name that is no state, or that is listed twice.
    fn bad_state_fault(&self) -> Result<Option<ReadError>, AllocError>
        requires { Suits self.now }
        ensures { IfOk result (λ e. e ≡ if_state (all_bad_states (tree_of self.now) (roles_of self.now)) None) }
    {
        let declared = self.file.states.states.as_slice();
        let found = bad_state(self.alloc, declared, self.roles, self.mentions)?;
        match found {
            Some(place) => {
                let e = text_fault(self.alloc, FaultKind::BadState, place.line, place.text)?;
                Ok(Some(e))
            }
            None => Ok(None),
        }
    }

    /// The first place where the clock mustn't stand, or else the first name that is no state.
    fn states_fault(&self) -> Result<Option<ReadError>, AllocError>
        requires { Suits self.now }
        ensures { IfOk result (λ e. e ≡ states_fault (tree_of self.now) (roles_of self.now)) }
    {
        let found = self.clock_fault()?;
        match found {
            Some(e) => Ok(Some(e)),
            None => self.bad_state_fault(),
        }
    }

    /// The first check that fails, of those before that for what is assigned.
    fn early_fault(&self) -> Result<Option<ReadError>, AllocError>
        requires { Suits self.now }
        ensures { IfOk result (λ e. e ≡ early_fault (tree_of self.now) (roles_of self.now)) }
    {
        let found = self.names_fault()?;
        if let Some(e) = found {
            return Ok(Some(e));
        }
        let found = self.forms_fault()?;
        match found {
            Some(e) => Ok(Some(e)),
            None => self.states_fault(),
        }
    }

    /// The port bits in the order of names.
    fn ports(&self) -> Result<Vec<Port>, AllocError>
        requires { Suits self.now }
        ensures moved { IfOk result (λ ports. IsPermutation (port_bits (symbols (tree_of self.now))) ports.items) }
        ensures ordered { IfOk result (λ ports. AreInOrder (names_of ports.items)) }
    {
        let ports = ports_in_file_order(self.alloc, self.numbers)?;
        sorted_ports(ports)
    }

    /// The statements bit by bit, over these port bits.
    fn body(&self, ports: &[Port]) -> Result<Statements, AllocError>
        requires suits { Suits self.now }
        requires sound { early_fault (tree_of self.now) (roles_of self.now) ≡ None }
        requires moved { IsPermutation (port_bits (symbols (tree_of self.now))) ports.now }
        ensures { IfOk result (λ made. body_view made ≡ body_over (tree_of self.now) (roles_of self.now) ports.now) }
    {
        let vars = port_names(self.alloc, ports)?;
        let places = var_numbers(self.alloc, self.numbers, &vars)?;
        let states = state_table(self.alloc, self.file.states.states.as_slice())?;
        let frame = Frame {
            alloc: self.alloc,
            numbers: self.numbers,
            vars: &vars,
            places: &places,
            states: &states,
            next: self.roles.next,
        };
        frame.body(&self.file.step.body)
    }

    /// A limit that is exceeded: of the port bits, or else of the states.
    fn limit(&self, ports: &[Port]) -> Option<ReadError>
        requires { ports_count (tree_of self.now) ≡ length ports.now }
        ensures { MatchOption result ((ports_count (tree_of self.now) ≤ most_ports) × (length (tree_of self.now).states.states ≤ most_states))
            (λ e. PassesLimit (tree_of self.now) e) }
    {
        let states = self.file.states.states.as_slice().len();
        if ports.len() > MOST_PORTS {
            return Some(over(LimitKind::Ports, ports.len()));
        }
        if states > MOST_STATES {
            return Some(over(LimitKind::States, states));
        }
        None
    }

    /// The state machine of these parts, which passes all checks.
    fn machine(&self, ports: Vec<Port>, body: Statements) -> Result<StateMachine, AllocError>
        requires suits { Suits self.now }
        requires moved { IsPermutation (port_bits (symbols (tree_of self.now))) ports.items }
        requires ordered { AreInOrder (names_of ports.items) }
        requires body { body_view body ≡ body_over (tree_of self.now) (roles_of self.now) ports.items }
        requires sound { PassesBehind (tree_of self.now) (roles_of self.now) }
        ensures { IfOk result (λ f. IsMachineOf (tree_of self.now) (roles_of self.now) f) }
    {
        let states = state_names(self.alloc, self.file.states.states.as_slice())?;
        let name = self.file.entity.name.copy(self.alloc)?;
        let clock = Name::scalar(self.roles.clock.copy(self.alloc)?);
        let ports = Ports::new(ports);
        let states = Names::new(states);
        Ok(StateMachine::new(name, ports, clock, states, body))
    }

    /// An output bit or the next state that some state leaves out.
    fn left_out_fault(&self, body: &Statements) -> Result<Option<ReadError>, AllocError>
        requires { Suits self.now }
        ensures { IfOk result (λ e. e ≡ if_name FaultKind.NotAssigned (left_out_of (tree_of self.now) (roles_of self.now) (body_view body.now)) None) }
    {
        let table = self.numbers.table();
        let found = left_out(self.alloc, table, self.roles, self.file, body)?;
        match found {
            Some(f) => {
                let e = name_fault(self.alloc, FaultKind::NotAssigned, f.line, f.name)?;
                Ok(Some(e))
            }
            None => Ok(None),
        }
    }

    /// The state machine of a text in which no check before that for what is assigned fails, or why it is rejected.
    fn finished(&self) -> Result<StateMachine, ReadError>
        requires suits { Suits self.now }
        requires sound { early_fault (tree_of self.now) (roles_of self.now) ≡ None }
        ensures machine { IfOk result (λ f. PassesBehind (tree_of self.now) (roles_of self.now) × IsMachineOf (tree_of self.now) (roles_of self.now) f) }
        ensures refused { IfErr result (λ e. IsRefusedBehind (tree_of self.now) (roles_of self.now) e) }
    {
        let ports = self.ports()?;
        let body = self.body(&ports)?;
        let fault = self.left_out_fault(&body)?;
        if let Some(e) = fault {
            return Err(e);
        }
        if let Some(e) = self.limit(&ports) {
            return Err(e);
        }
        let machine = self.machine(ports, body)?;
        Ok(machine)
    }

    /// The state machine, or why the text is rejected.
    fn checked(&self) -> Result<StateMachine, ReadError>
        requires { Suits self.now }
        ensures machine { IfOk result (λ f. PassesBehind (tree_of self.now) (roles_of self.now) × IsMachineOf (tree_of self.now) (roles_of self.now) f) }
        ensures refused { IfErr result (λ e. IsRefusedBehind (tree_of self.now) (roles_of self.now) e) }
    {
        let found = self.early_fault()?;
        match found {
            Some(e) => Err(e),
            None => self.finished(),
        }
    }
}

fn port_names(alloc: Global, ports: &[Port]) -> Result<Vec<Name>, AllocError>
    ensures { IfOk result (λ made. made.items ≡ names_of ports.now) }
{
    let mut made = Vec::new(alloc);
    for port in ports {
        made.push(port.name.copy(alloc)?)?;
    }
    Ok(made)
}

fn state_names(alloc: Global, states: &[NewName]) -> Result<Vec<Name>, AllocError>
    ensures { IfOk result (λ made. made.items ≡ map (λ s. scalar s.text) states.now) }
{
    let mut made = Vec::new(alloc);
    for state in states {
        made.push(Name::scalar(state.text.copy(alloc)?))?;
    }
    Ok(made)
}

fn over(which: LimitKind, reached: usize) -> ReadError
    ensures { result ≡ ReadError.Limit (record { which = which; reached = reached }) }
{
    ReadError::Limit(Limit {
        which,
        reached: reached as u64,
    })
}

/// The state machine of a text in which no name is declared twice, or why it is rejected.
fn check_named(
    alloc: Global,
    table: SymbolTable,
    file: &StateFile,
    roles: Roles,
) -> Result<StateMachine, ReadError>
    requires known { table ≡ symbols (machine_view file.now) }
    requires once { first_repeated [] (symbols (machine_view file.now)) ≡ None }
    requires roles { HasRoles (machine_view file.now) (named_of roles) }
    requires some_state { 0 < length (machine_view file.now).states.states }
    requires few_bits { length (all_names (symbols (machine_view file.now))) < 2 ^ 32 }
    requires few { length (machine_view file.now).states.states ≤ most_numbered }
    requires listed { HasStates (machine_view file.now).step.body }
    requires short { HasShortExpressions (machine_view file.now) }
    ensures machine { IfOk result (λ f. IsMadeBehind (machine_view file.now) (named_of roles.entry) f) }
    ensures refused { IfErr result (λ e. IsRefusedBehind (machine_view file.now) (named_of roles.entry) e) }
{
    let numbers = Numbers::new(alloc, table)?;
    let (list, has_case) = mentions(alloc, &file.step.body)?;
    let checking = Checking {
        alloc,
        file,
        roles,
        numbers: &numbers,
        mentions: &list,
        has_case,
    };
    checking.checked()
}

/// The state machine that a text describes, or the first check that fails, in this order: a name that is declared twice, a pragma
/// that is missing or names nothing that fits, an unknown name, a width, an output that nothing assigns, an unsupported form, the
/// clock, a name that isn't a state's, a target that some state leaves out; then more than 4096 port bits, or more than 256 states.
/// Each text that `read_machine` of `fsm_text` reads meets what is asked of it. Takes memory for each declared bit, and for
/// each bit that is assigned.
pub fn check_fsm(
    alloc: Global,
    file: &StateFile,
    pragmas: &[Pragma],
) -> Result<StateMachine, ReadError>
    requires some_state { 0 < length (machine_view file.now).states.states }
    requires few_bits { length (all_names (symbols (machine_view file.now))) < 2 ^ 32 }
    requires few { length (machine_view file.now).states.states ≤ most_numbered }
    requires listed { HasStates (machine_view file.now).step.body }
    requires short { HasShortExpressions (machine_view file.now) }
    ensures machine { IfOk result (λ f. IsPassed (machine_view file.now) pragmas.now f) }
    ensures refused { IfErr result (λ e. IsRefusedOrMemory (machine_view file.now) pragmas.now e) }
{
    let table = symbol_table(alloc, file)?;
    if let Some(symbol) = repeated(&table) {
        let e = text_fault(alloc, FaultKind::Twice, symbol.line, &symbol.text)?;
        return Err(e);
    }
    match named_roles(file, pragmas) {
        Some(roles) => check_named(alloc, table, file, roles),
        None => Err(fault(FaultKind::NoPragma, 1, Vec::new(alloc))),
    }
}
