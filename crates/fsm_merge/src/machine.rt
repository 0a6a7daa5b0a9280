// The machine that is left where states are made one.
ghost use Rattle.std.specs.Prelude.{◌≡◌, ◌<◌, length, IfOk};
ghost use Rattle.fsm_merge.specs.Numbering.{IsNumbering};
ghost use Rattle.fsm_merge.specs.Merged.{names_at, merged_fsm};

use crate::Numbering;
use crate::law::merged_is_checked;
use crate::merger::Merger;
use fsm_core::StateMachine;
use std::alloc::{AllocError, Global};
use vlsi_base::{Listed, Name, Names, Port, Ports};

// The same ports.
fn copied_ports(alloc: Global, ports: &[Port]) -> Result<Ports, AllocError>
    ensures { IfOk result (λ made. made ≡ ports.now) }
{
    let mut made = Vec::new(alloc);
    for port in ports {
        made.push(Port {
            name: port.name.copy(alloc)?,
            dir: port.dir,
        })?;
    }
    Ok(Listed::new(made))
}

// The names at these places.
fn names_at(alloc: Global, names: &[Name], places: &[u32]) -> Result<Names, AllocError>
    ensures { IfOk result (λ made. made ≡ names_at names.now places.now) }
{
    let mut made = Vec::new(alloc);
    for place in places {
        match names.get(*place as usize) {
            Some(name) => made.push(name.copy(alloc)?)?,
            None => {}
        }
    }
    Ok(Listed::new(made))
}

/// The state machine of the states that are kept: each state in an assignment is replaced by the new one, a branch keeps those of its
/// states that are kept, and a branch without one is dropped. Takes memory for the machine.
pub fn merged_machine(
    alloc: Global,
    machine: &StateMachine,
    numbering: Numbering<'_>,
) -> Result<StateMachine, AllocError>
    requires { IsNumbering (length machine.now.states) numbering.state_of.now numbering.kept.now }
    ensures { IfOk result (λ made. made ≡ merged_fsm machine.now numbering.entry.state_of.now numbering.entry.kept.now) }
{
    // What is left is checked.
    merged_is_checked();
    let name = machine.name().copy(alloc)?;
    let ports = copied_ports(alloc, machine.ports().as_slice())?;
    let clock = machine.clock().copy(alloc)?;
    let states = names_at(alloc, machine.states().as_slice(), numbering.kept)?;
    let body = Merger { alloc, numbering }.body(machine.body())?;
    Ok(StateMachine::new(name, ports, clock, states, body))
}
