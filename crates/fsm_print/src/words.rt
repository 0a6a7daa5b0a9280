// The names that a text has.
ghost use Rattle.std.specs.Prelude.{◌≡◌, ◌<◌, ◌+◌, ◌++◌, ◌^◌, map, length, IfOk};
ghost use Rattle.machine_core.specs.Machine.{names_of};
ghost use Rattle.fsm_print.specs.Written.{taken_texts, AreWords};

use fsm_core::StateMachine;
use std::alloc::{AllocError, Global};
use text_names::first_free;
use vlsi_base::{Name, Names, Port, Text};

/// The names of a state machine's text: those of its port bits and of its states, and those of the type of the states and of the two
/// signals that hold them.
#[derive(Drop)]
pub struct Words {
    /// The port bits, of which the variables of expressions are numbers.
    pub vars: Names,
    /// The states by their numbers.
    pub states: Names,
    /// The type of the states.
    pub type_name: Text,
    /// The signal that holds the current state.
    pub current: Text,
    /// The signal that the next state is given to.
    pub next: Text,
}

// The names of ports.
fn port_names(alloc: Global, ports: &[Port]) -> Result<Vec<Name>, AllocError>
    ensures { IfOk result (λ names. names.items ≡ names_of ports.now) }
{
    let mut names = Vec::new(alloc);
    for port in ports {
        names.push(port.name.copy(alloc)?)?;
    }
    Ok(names)
}

// The same names once more.
fn copies(alloc: Global, names: &[Name]) -> Result<Vec<Name>, AllocError>
    ensures { IfOk result (λ made. made.items ≡ names.now) }
{
    let mut made = Vec::new(alloc);
    for name in names {
        made.push(name.copy(alloc)?)?;
    }
    Ok(made)
}

// The texts of ports and states.
fn taken(alloc: Global, ports: &[Port], states: &[Name]) -> Result<Vec<Text>, AllocError>
    ensures { IfOk result (λ texts. texts.items ≡ map (λ p. p.name.text) ports.now ++ map (λ s. s.text) states.now) }
{
    let mut texts = Vec::new(alloc);
    for port in ports {
        texts.push(port.name.text.copy(alloc)?)?;
    }
    for state in states {
        texts.push(state.text.copy(alloc)?)?;
    }
    Ok(texts)
}

// The names of a state machine's text, where these texts are taken.
fn named(alloc: Global, machine: &StateMachine, taken: &[Text]) -> Result<Words, AllocError>
    requires texts { taken.now ≡ taken_texts machine.now }
    requires few { length taken.now < 2 ^ 63 }
    ensures { IfOk result (λ words. AreWords machine.now words) }
{
    let vars = port_names(alloc, machine.ports().as_slice())?;
    let states = copies(alloc, machine.states().as_slice())?;
    Ok(Words {
        vars: Names::new(vars),
        states: Names::new(states),
        type_name: first_free(alloc, b"state", taken)?,
        current: first_free(alloc, b"current_state", taken)?,
        next: first_free(alloc, b"next_state", taken)?,
    })
}

/// The names of a state machine's text. Takes memory for them, and time for each the logarithm of their number.
pub(crate) fn words_of(alloc: Global, machine: &StateMachine) -> Result<Words, AllocError>
    requires { length machine.now.ports < 2 ^ 32 }
    ensures { IfOk result (λ words. AreWords machine.now words) }
{
    let ports = machine.ports().as_slice();
    let states = machine.states().as_slice();
    let taken = taken(alloc, ports, states)?;
    named(alloc, machine, &taken)
}
