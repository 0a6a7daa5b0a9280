// What a state machine declares, and which of it the pragmas name.
ghost use Rattle.std.specs.Prelude.{◌≡◌, ◌++◌, ◌∷◌, ◌&&◌, not, is_none, bytes_eq, [], IfOk};
ghost use Rattle.std.specs.List.{list_any};
ghost use Rattle.vlsi_base.specs.Name.{is_supply};
ghost use Rattle.source_checks.specs.Unsupported.{is_in_mode, is_bit_word};
ghost use Rattle.std.specs.Option.{option_map};
ghost use Rattle.fsm_text.specs.Written.{machine_view};
ghost use Rattle.fsm_io.specs.Known.{symbols, generic_symbols, inner_symbols, is_state_signal, is_clock_port, fits_all, named};
ghost use Rattle.fsm_io.specs.Pieces.{named_of};

use fsm_text::{StateFile, named_by};
use source_checks::SymbolTable;
use std::alloc::{AllocError, Global};
use vlsi_base::{
    Generic, Mode, NewName, NewNames, PortGroup, Pragma, SignalGroup, SignalType, Text, TypeWord,
    is_supply,
};

/// What the pragmas name: the signals that hold the current and the next state, and the clock.
#[derive(Clone, Copy)]
pub struct Roles<'a> {
    pub current: &'a Text,
    pub next: &'a Text,
    pub clock: &'a Text,
}

fn copies(alloc: Global, names: &[NewName]) -> Result<Vec<NewName>, AllocError>
    ensures { IfOk result (λ made. made.items ≡ names.now) }
{
    let mut made = Vec::new(alloc);
    for name in names {
        let text = name.text.copy(alloc)?;
        made.push(NewName {
            text,
            line: name.line,
        })?;
    }
    Ok(made)
}

/// These names and behind them others, which a declaration on this line declares and which count as one bit.
pub fn with_names(
    alloc: Global,
    table: SymbolTable,
    line: u32,
    names: &[NewName],
) -> Result<SymbolTable, AllocError>
    ensures { IfOk result (λ made. made ≡ table ++ inner_symbols line names.now) }
{
    let names = copies(alloc, names)?;
    let group = SignalGroup {
        line,
        names: NewNames::new(names),
        kind: SignalType {
            word: TypeWord::Bit,
            line,
            range: None,
        },
    };
    table.with_signals(alloc, &group)
}

pub fn with_name(
    alloc: Global,
    table: SymbolTable,
    line: u32,
    name: &NewName,
) -> Result<SymbolTable, AllocError>
    ensures { IfOk result (λ made. made ≡ table ++ inner_symbols line (name.now ∷ [])) }
{
    let mut names = Vec::new(alloc);
    let text = name.text.copy(alloc)?;
    names.push(NewName {
        text,
        line: name.line,
    })?;
    with_names(alloc, table, line, &names)
}

fn with_generics(
    alloc: Global,
    table: SymbolTable,
    groups: &[Generic],
) -> Result<SymbolTable, AllocError>
    ensures { IfOk result (λ made. made ≡ table ++ generic_symbols groups.now) }
{
    let mut made = table;
    for group in groups {
        made = with_names(alloc, made, group.line, group.names.as_slice())?;
    }
    Ok(made)
}

/// The type of the states with the states, and the two signals.
fn with_states(
    alloc: Global,
    table: SymbolTable,
    file: &StateFile,
) -> Result<SymbolTable, AllocError>
    ensures { IfOk result (λ made. made ≡ table
        ++ (inner_symbols file.now.states.line (file.now.states.name ∷ file.now.states.states)
        ++ inner_symbols file.now.signals.line (file.now.signals.first ∷ file.now.signals.second ∷ []))) }
{
    let states = &file.states;
    let typed = with_name(alloc, table, states.line, &states.name)?;
    let known = with_names(alloc, typed, states.line, states.states.as_slice())?;
    let signals = &file.signals;
    let first = with_name(alloc, known, signals.line, &signals.first)?;
    with_name(alloc, first, signals.line, &signals.second)
}

/// The declared names. Takes memory for each.
pub fn symbol_table(alloc: Global, file: &StateFile) -> Result<SymbolTable, AllocError>
    ensures { IfOk result (λ table. table ≡ symbols (machine_view file.now)) }
{
    let ports = SymbolTable::empty(alloc).with_ports(alloc, file.entity.ports.as_slice())?;
    let generics = with_generics(alloc, ports, file.entity.generics.as_slice())?;
    with_states(alloc, generics, file)
}

/// Whether the two texts have the same bytes.
pub fn same(a: &Text, b: &Text) -> bool
    ensures { result ≡ bytes_eq a.now b.now }
{
    a.as_bytes() == b.as_bytes()
}

fn is_state_signal(file: &StateFile, text: &Text) -> bool
    ensures { result ≡ is_state_signal (machine_view file.now) text.now }
{
    same(&file.signals.first.text, text) || same(&file.signals.second.text, text)
}

fn has_name(names: &[NewName], text: &Text) -> bool
    ensures { result ≡ list_any (λ n. bytes_eq n.text text.now) names.now }
{
    for name in names {
        if same(&name.text, text) {
            return true;
        }
    }
    false
}

/// Whether this is a scalar input of type bit that is no supply.
fn is_clock_port(groups: &[PortGroup], text: &Text) -> bool
    ensures { result ≡ is_clock_port groups.now text.now }
{
    for group in groups {
        if has_name(group.names.as_slice(), text) {
            return may_clock(group, text);
        }
    }
    false
}

fn may_clock(group: &PortGroup, text: &Text) -> bool
    ensures { result ≡ ((is_in_mode group.now.mode && (is_bit_word group.now.kind.word && is_none group.now.kind.range)) && not (is_supply text.now)) }
{
    group.mode == Mode::In
        && group.kind.word == TypeWord::Bit
        && group.kind.range.is_none()
        && !is_supply(text.as_bytes())
}

/// Whether the two state signals differ, and the clock is one.
fn fits_all(file: &StateFile, roles: Roles) -> bool
    ensures { result ≡ fits_all (machine_view file.now) roles.entry.current.now roles.entry.next.now roles.entry.clock.now }
{
    is_state_signal(file, roles.current)
        && is_state_signal(file, roles.next)
        && !same(roles.current, roles.next)
        && is_clock_port(file.entity.ports.as_slice(), roles.clock)
}

/// What the first pragma of each of the three keys names; none where one is missing, or names nothing that fits.
pub fn named_roles<'a>(file: &StateFile, pragmas: &'a [Pragma]) -> Option<Roles<'a>>
    ensures { option_map named_of result ≡ named (machine_view file.now) pragmas.now }
{
    let Some(current) = named_by(pragmas, b"current_state") else {
        return None;
    };
    let Some(next) = named_by(pragmas, b"next_state") else {
        return None;
    };
    let Some(clock) = named_by(pragmas, b"clock") else {
        return None;
    };
    let roles = Roles {
        current,
        next,
        clock,
    };
    if fits_all(file, roles) {
        Some(roles)
    } else {
        None
    }
}
