// A machine that has passed its checks.
ghost use Rattle.std.specs.Prelude.{◌≡◌, map};
ghost use Rattle.std.specs.Option.{option_copied};
ghost use Rattle.machine_core.specs.Checked.{IsChecked};
ghost use Rattle.machine_core.specs.View.{equation_view, register_view, machine_of};

use crate::{Equations, Registers};
use std::marker::Model;
use vlsi_base::{Name, Names, Ports, Text};

/// A machine that has passed its checks: its names are different, its ports and registers stand in the order of names, and
/// each of its equations reads only inputs, registers and earlier equations. So it has exactly one valuation for each
/// contents of its registers and each input vector. Variable k of an expression is number k of `vars`.
#[derive(Drop)]
pub struct Machine {
    name: Text,
    ports: Ports,
    clock: Option<Name>,
    vars: Names,
    equations: Equations,
    registers: Registers,
}

impl Model for Machine {
    ghost use Rattle.std.specs.Coded.{codes};
    ghost use Rattle.machine_core.specs.Machine.{Machine as Meaning};
    ghost use Rattle.machine_core.specs.Code.{expression_code};

    ghost Value = { Meaning };

    ghost coded = { Prim.hlevel (codes, expression_code (Prim.hlevel codes)) };

    ghost use Rattle.machine_core.specs.View.{machine_of};
    ghost use Rattle.machine_core.specs.Checked.{IsChecked};

    ghost view = { λ a. machine_of a.name a.ports a.clock a.vars a.equations a.registers };

    ghost invariant = { λ a. IsChecked (machine_of a.name a.ports a.clock a.vars a.equations a.registers) };
}

impl Machine {
    /// The machine of these parts. Takes no memory.
    pub fn new(
        name: Text,
        ports: Ports,
        clock: Option<Name>,
        vars: Names,
        equations: Equations,
        registers: Registers,
    ) -> Self
        requires { IsChecked (machine_of name ports clock vars equations registers) }
        ensures { result ≡ machine_of name ports clock vars equations registers }
    {
        Machine {
            name,
            ports,
            clock,
            vars,
            equations,
            registers,
        }
    }

    /// The entity's name.
    pub fn name(&self) -> &Text
        ensures value { result.now ≡ self.now.name }
        ensures checked { IsChecked self.now }
    {
        &self.name
    }

    /// The port bits without vdd and vss, in the order of names, the clock among them.
    pub fn ports(&self) -> &Ports
        ensures value { result.now ≡ self.now.ports }
        ensures checked { IsChecked self.now }
    {
        &self.ports
    }

    /// The port that clocks the registers, where there is one.
    pub fn clock(&self) -> Option<&Name>
        ensures value { option_copied result ≡ self.now.clock }
        ensures checked { IsChecked self.now }
    {
        self.clock.as_ref()
    }

    /// All names but the clock's. Variable k of an expression is number k of them.
    pub fn vars(&self) -> &Names
        ensures value { result.now ≡ self.now.vars }
        ensures checked { IsChecked self.now }
    {
        &self.vars
    }

    /// The equations, each after those that it reads.
    pub fn equations(&self) -> &Equations
        ensures value { map equation_view result.now ≡ self.now.equations }
        ensures checked { IsChecked self.now }
    {
        &self.equations
    }

    /// The registers in the order of names.
    pub fn registers(&self) -> &Registers
        ensures value { map register_view result.now ≡ self.now.registers }
        ensures checked { IsChecked self.now }
    {
        &self.registers
    }
}
