// A state machine that has passed its checks.
ghost use Rattle.std.specs.Prelude.{◌≡◌};
ghost use Rattle.fsm_code.specs.View.{body_view};
ghost use Rattle.fsm_core.specs.Checked.{IsCheckedFsm};
ghost use Rattle.fsm_core.specs.View.{fsm_with};

use fsm_code::Statements;
use std::marker::Model;
use vlsi_base::{Name, Names, Ports, Text};

/// A state machine that has passed its checks: its ports stand in the order of names, the clock among them, which is no bit of a
/// range; it has one case, whose branches list known states, each once; its expressions read inputs other than the clock; and on
/// each path of ifs, with each state, the next state and each output bit are assigned. Variable k of an expression is number k of
/// the ports.
#[derive(Drop)]
pub struct StateMachine {
    name: Text,
    ports: Ports,
    clock: Name,
    states: Names,
    body: Statements,
}

impl Model for StateMachine {
    ghost use Rattle.std.specs.Coded.{codes};
    ghost use Rattle.machine_core.specs.Code.{expression_code};
    ghost use Rattle.fsm_machine.specs.Fsm.{Fsm as Meaning};
    ghost use Rattle.fsm_core.specs.Code.{statements_code};
    ghost use Rattle.fsm_core.specs.View.{fsm_with};
    ghost use Rattle.fsm_core.specs.Checked.{IsCheckedFsm};

    ghost Value = { Meaning };

    ghost coded = { Prim.hlevel (codes, expression_code (Prim.hlevel codes), statements_code (Prim.hlevel (codes, expression_code (Prim.hlevel codes)))) };

    ghost view = { λ a. fsm_with a.name a.ports a.clock a.states a.body };

    ghost invariant = { λ a. IsCheckedFsm (fsm_with a.name a.ports a.clock a.states a.body) };
}

impl StateMachine {
    /// The state machine of these parts. Takes no memory.
    pub fn new(name: Text, ports: Ports, clock: Name, states: Names, body: Statements) -> Self
        requires { IsCheckedFsm (fsm_with name ports clock states body) }
        ensures { result ≡ fsm_with name ports clock states body }
    {
        StateMachine {
            name,
            ports,
            clock,
            states,
            body,
        }
    }

    /// The entity's name.
    pub fn name(&self) -> &Text
        ensures value { result.now ≡ self.now.name }
        ensures checked { IsCheckedFsm self.now }
    {
        &self.name
    }

    /// The port bits without vdd and vss, in the order of names, the clock among them.
    pub fn ports(&self) -> &Ports
        ensures value { result.now ≡ self.now.ports }
        ensures checked { IsCheckedFsm self.now }
    {
        &self.ports
    }

    /// The clock, which is one of the inputs.
    pub fn clock(&self) -> &Name
        ensures value { result.now ≡ self.now.clock }
        ensures checked { IsCheckedFsm self.now }
    {
        &self.clock
    }

    /// The states in the order of their declaration.
    pub fn states(&self) -> &Names
        ensures value { result.now ≡ self.now.states }
        ensures checked { IsCheckedFsm self.now }
    {
        &self.states
    }

    /// The statements of the first process.
    pub fn body(&self) -> &Statements
        ensures value { body_view result.now ≡ self.now.body }
        ensures checked { IsCheckedFsm self.now }
    {
        &self.body
    }
}
